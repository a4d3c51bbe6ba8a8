//! What stands before all changes of a dump.

ghost use Rattle.std.specs.Prelude.{◌≡◌};
ghost use Rattle.c62_wave.specs.Head.{head};

/// The head of a dump: each signal with its width in bits, its code and its name.
pub const HEADER: &str = "\
$version c62 $end
$timescale 1ns $end
$scope module c62 $end
$var wire 1 ! clock $end
$var wire 32 & line $end
$var wire 32 ' packet $end
$var wire 32 ( L1 $end
$var wire 32 ) S1 $end
$var wire 32 * M1 $end
$var wire 32 + D1 $end
$var wire 32 , L2 $end
$var wire 32 - S2 $end
$var wire 32 . M2 $end
$var wire 32 / D2 $end
$var wire 16 0 writes $end
$var wire 16 1 loads $end
$var wire 16 2 branches $end
$var wire 32 3 A0 $end
$var wire 32 4 A1 $end
$var wire 32 5 A2 $end
$var wire 32 6 A3 $end
$var wire 32 7 A4 $end
$var wire 32 8 A5 $end
$var wire 32 9 A6 $end
$var wire 32 : A7 $end
$var wire 32 ; A8 $end
$var wire 32 < A9 $end
$var wire 32 = A10 $end
$var wire 32 > A11 $end
$var wire 32 ? A12 $end
$var wire 32 @ A13 $end
$var wire 32 A A14 $end
$var wire 32 B A15 $end
$var wire 32 C B0 $end
$var wire 32 D B1 $end
$var wire 32 E B2 $end
$var wire 32 F B3 $end
$var wire 32 G B4 $end
$var wire 32 H B5 $end
$var wire 32 I B6 $end
$var wire 32 J B7 $end
$var wire 32 K B8 $end
$var wire 32 L B9 $end
$var wire 32 M B10 $end
$var wire 32 N B11 $end
$var wire 32 O B12 $end
$var wire 32 P B13 $end
$var wire 32 Q B14 $end
$var wire 32 R B15 $end
$var wire 32 S store_address $end
$var wire 32 T store_data $end
$upscope $end
$enddefinitions $end
";

/// The head of a dump as bytes.
#[tactic(auto, using(crate::proofs::Heads::head_is))]
pub(crate) fn head() -> &'static [u8]
    ensures { result.now ≡ head }
{
    HEADER.as_bytes()
}
