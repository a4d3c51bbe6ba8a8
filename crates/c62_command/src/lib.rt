//! What the words of the command line ask for.
#![tactic(auto)]

mod arguments;
mod blamed;
mod checking;
mod command;
mod flight;
mod laws;
mod promise;
mod setting;

pub use blamed::{base_given, setting_at};
pub use command::{
    Adopting, Command, CommandError, Course, Drawing, Exclusion, Flight, Form, Looping, Packing,
    Rendering, Request, Showing, Start, command_of,
};
pub use flight::{FlightCourse, FlightStart};
pub use laws::{prints_are_of_memory, takes_limits};
pub use promise::{BadPromise, PromiseError, Promises, Trips, read_trips};
pub use setting::{Dump, Print, Setting, Size, equals_sign, first_part, place_in};
