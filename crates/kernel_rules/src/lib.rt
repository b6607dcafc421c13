//! The rules of a program in the kernel that relays ChannelData of TURN (RFC 8656, sections 12.6
//! and 12.7): whether it takes a datagram, and the headers with which the datagram leaves.
//! `c/server/kernel/relay.bpf.c` moves the bytes, asks the maps, and calls the functions whose
//! names begin with `kernel_`. None of them has a `requires`, takes memory or panics.
#![tactic(auto)]

mod checksums;
mod flows;
mod ip;
mod rates;
mod udp;
