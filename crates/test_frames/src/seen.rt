//! Of registers and datagrams what no command shows, by the public calls of `ec_names`. What `ecat decode --explain` shows are
//! cases (`tools/cases/data/remarks.cases`).
use crate::compare::{expect, expect_same};
use ec_frame::Command;
use ec_names::{
    REGISTERS, Register, first_datagram, register_at, register_bytes, registers_within,
};
use std::process::Abort;

#[test]
fn registers_end_before_the_ram(rt: HostRuntime) {
    let none = register_at(0x1000).is_none() && register_at(usize::MAX).is_none();
    expect(&rt, none, "registers in the RAM");
    let part = register_bytes(Register::AlStatusCode, 0x0130, b"\x12\0\0\0\x11");
    expect(
        &rt,
        part.is_none(),
        "a part of a register has not its bytes",
    );
}

#[test]
fn all_registers_are_within_all_addresses(rt: HostRuntime) {
    let all = registers_within(rt.alloc(), 0, usize::MAX).expect(&rt, "memory");
    expect_same(&rt, &all.as_slice(), &REGISTERS.as_slice(), "registers");
}

/// A datagram that says that another follows, and a byte behind it.
const FPRD: &[u8; 15] = b"\x04\x07\xe9\x03\x30\x01\x02\x80\0\0\x08\0\x01\0\x07";

/// Whether bytes begin with that datagram, and have a byte behind it.
fn is_seen(bytes: &[u8]) -> bool {
    match first_datagram(bytes) {
        Some((seen, rest)) => {
            seen.command == Command::Fprd
                && seen.address == 0x0130_03E9
                && seen.content == b"\x08\0".as_slice()
                && seen.counter == 1
                && rest == b"\x07".as_slice()
        }
        None => false,
    }
}

/// No datagram is seen in bytes.
fn expect_unseen(rt: &impl Abort, bytes: &[u8]) {
    expect(rt, first_datagram(bytes).is_none(), "no whole datagram");
}

#[test]
fn whole_datagrams_are_seen(rt: HostRuntime) {
    expect(&rt, is_seen(FPRD), "a datagram");
    for cut in 0..14 {
        expect_unseen(&rt, &FPRD[..cut]);
    }
    expect_unseen(&rt, b"\x0f\x07\xe9\x03\x30\x01\0\0\0\0\0\0");
}
