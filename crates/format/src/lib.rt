// The records that answers are made of, and those that stand for a message and a header in lent stores: numbers only.
// What they mean is in specs/Refusals.antt and specs/Layout.antt. Two enums are shared by definitions and functions: `Manner`
// (specs/Escaping.antt) and `Quoting` (specs/LookingUp.antt). The only functions are those of `refusal`, which give a refusal its
// number; the definitions are document 01, with what document 02 changes.

#![tactic(auto)]

mod refusal;

pub use crate::refusal::Refusal;

// What a call answers: the refusal's number, 0 where it is accepted, and the carried number.
#[repr(C)]
#[derive(Clone, Copy)]
pub struct Numbers {
    pub number: u64,
    pub carried: u64,
}

// A message: length of its type; its headers and the bytes that they take in the head store; its content headers and
// theirs; length of its body.
#[repr(C)]
#[derive(Clone, Copy)]
pub struct CpimMessage {
    pub typelen: usize,
    pub headers: usize,
    pub headerlen: usize,
    pub contents: usize,
    pub contentlen: usize,
    pub bodylen: usize,
}

// A header alone: length of its value; its parameters; the bytes that it takes in the header store, 0 where nothing is held.
#[repr(C)]
#[derive(Clone, Copy)]
pub struct CpimHeader {
    pub valuelen: usize,
    pub params: usize,
    pub size: usize,
}

// What a call on a message answers: the two numbers, and the record that it hands back.
#[repr(C)]
#[derive(Clone, Copy)]
pub struct Answer {
    pub number: u64,
    pub carried: u64,
    pub message: CpimMessage,
}

// What a call on a header alone answers.
#[repr(C)]
#[derive(Clone, Copy)]
pub struct HeaderAnswer {
    pub number: u64,
    pub carried: u64,
    pub header: CpimHeader,
}

// By which reading a header line is read: the source's, or the second, with parameters and escapes as RFC 3862 has them.
#[derive(Clone, Copy)]
pub enum Manner {
    Source,
    Rfc,
}

// Where a byte of a header value stands: outside quoted strings, inside one, or there behind a backslash, which covers it.
#[derive(Clone, Copy)]
pub enum Quoting {
    Outside,
    Inside,
    Covered,
}
