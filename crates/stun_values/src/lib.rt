//! The values of the fifteen attribute types that this library knows: what each has to be, read
//! from its bytes, and how it is written and printed. It takes no memory.
#![tactic(auto)]

mod algorithm;
mod algorithm_list;
mod check;
mod checksum;
mod error_value;
mod lengths;
mod printed;
mod rule;
mod socket_value;
mod text;
mod typed;
mod types;
mod xored;

pub use algorithm::{
    PasswordAlgorithmValue, check_algorithms, print_algorithm, print_algorithms,
    print_algorithms_in, read_algorithm, read_one, write_algorithm, write_algorithms,
};
pub use algorithm_list::AlgorithmList;
pub use check::{check_length, check_range};
pub use checksum::{masked, read_checksum};
pub use error_value::{check_error, print_error, read_error, write_error};
pub use lengths::{
    check_hash_length, check_hmac_length, check_sha1_length, check_sha256_length, hmac_length,
};
pub use printed::{print_address, print_hex, print_plain, print_quoted, print_xored};
pub use rule::{
    ALTERNATE_DOMAIN_MAX, NONCE_MAX, REALM_MAX, Rule, SOFTWARE_MAX, TEXT_MAX, USERNAME_MAX,
    is_typed, rule_of,
};
pub use socket_value::{address_length, read_address, write_address};
pub use text::read_text;
pub use typed::{TypedValue, read_value};
pub use types::{TYPES_MAX, check_type_count, check_types, print_types, print_types_in};
pub use xored::{write_xored, xor_addr};
