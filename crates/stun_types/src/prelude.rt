//! The traits of attributes and of writers, for `use stun_types::prelude::*;`.

pub use crate::attribute::{Attribute, AttributeFromRaw, AttributeStaticType, AttributeWrite};
pub use crate::message::{MessageWrite, MessageWriteExt};
