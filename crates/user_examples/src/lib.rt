//! Attributes, a random number generator, and functions as a user of `stun_types` writes them, and
//! what is proved of the messages that they write and read. Each `requires` of the library that they
//! meet, and each `unreachable!()`, shows that the contracts say enough for a caller. `tests/` runs
//! them.
#![tactic(auto)]

mod behind;
mod blob;
mod counting;
mod ended;
mod full;
mod halves;
mod header;
mod hops;
mod in_array;
mod in_slice;
mod kinds;
mod literal;
mod my_attribute;
mod note;
mod overwritten;
mod owned;
mod pushed;
mod request;
mod room;
mod there;
mod two_writers;
mod whose;
mod write_fixed;

pub use behind::software_behind;
pub use blob::Blob;
pub use counting::Counting;
pub use ended::end_message;
pub use full::is_full;
pub use halves::{sign_in_halves, validate_in_halves};
pub use header::{header_behind_adds, header_in_forty, header_in_vector};
pub use hops::{Hops, HopsKind, hops_there_and_back};
pub use in_array::{signed_in_array, steps_in_array};
pub use in_slice::software_in_slice;
pub use kinds::{
    Home, HomeKind, Marker, MarkerKind, Quiet, QuietKind, home_there_and_back,
    marker_there_and_back, quiet_there_and_back,
};
pub use literal::{add_by_match, add_if_short, add_or_return};
pub use my_attribute::{MyAttribute, my_attribute_is_read_back};
pub use note::{Note, NoteKind, note_of, note_there_and_back};
pub use overwritten::overwrite;
pub use owned::{owns_address, owns_server};
pub use pushed::{push_within_room, pushed_message};
pub use request::software_message;
pub use room::{UseCandidate, nominate_in_vector, nominate_sixteen};
pub use two_writers::{in_both, software_in_both};
pub use whose::{signs_and_validates, validates_own};
pub use write_fixed::WriteFixed;
