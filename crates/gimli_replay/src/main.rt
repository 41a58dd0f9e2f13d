// gimli's own answers, replayed: standard input has cases, each a call and the bytes that it reads, and the file stdout beside
// src/ has what gimli 0.34.0 answered, or, where a LEB128 number is longer than gimli allows, what section 7.6 says (tests/gimli/README.md says
// how they were made). A line for each case.
//
// A case, all numbers little-endian: the call (1 byte), the byte order (1 byte, 0 little), the place, the part's end, an argument
// and the section's length (2 bytes each), and the section's bytes.
#![tactic(auto)]

use reader::RunTimeEndian;
use std::io;

// The words of the calls in the order of their numbers, which begin with 1, each with the letter of its reading.
const CALLS: [(&[u8], u8); 12] = [
    (b" u8", b'1'),
    (b" u16", b'2'),
    (b" u32", b'4'),
    (b" u64", b'8'),
    (b" word32", b'w'),
    (b" word64", b'W'),
    (b" length", b'n'),
    (b" uleb128", b'u'),
    (b" uleb128_u16", b'v'),
    (b" skip", b's'),
    (b" split", b'p'),
    (b" str", b'z'),
];

// A call.
#[derive(Clone, Copy)]
struct Call {
    op: u8,
    order: RunTimeEndian,
    at: usize,
    end: usize,
    arg: usize,
}

// A case, and what stands behind it.
#[derive(Clone, Copy)]
struct Case<'a> {
    call: Call,
    section: &'a [u8],
    rest: &'a [u8],
}

fn main(rt: HostRuntime) -> io::Result<()> {
    let mut buffer = [0; 65536];
    let n = standard_input::read_full(&rt, &mut buffer)?;
    replay(&rt, &buffer[..n])
}

// Answers each case in turn. A case has bytes, so that there are no more cases than bytes.
fn replay(rt: &impl Print, s: &[u8]) -> io::Result<()> {
    let mut rest = s;
    for number in 0..s.len() {
        if rest.is_empty() {
            break;
        }
        print!(rt; "{number}")?;
        let Some(case) = first_case(rest) else {
            return rt.write_all(b" is cut short\n");
        };
        answer(rt, case.call, case.section)?;
        rest = case.rest;
    }
    Ok(())
}

// The first case, if it stands there whole.
fn first_case(s: &[u8]) -> Option<Case<'_>> {
    let (head, bytes) = s.split_first_chunk::<10>()?;
    let [
        op,
        order,
        at,
        at_high,
        end,
        end_high,
        arg,
        arg_high,
        len,
        len_high,
    ] = *head;
    let (section, rest) = bytes.split_at_checked(two_bytes(len, len_high))?;
    let call = Call {
        op,
        order: if order == 0 {
            RunTimeEndian::Little
        } else {
            RunTimeEndian::Big
        },
        at: two_bytes(at, at_high),
        end: two_bytes(end, end_high),
        arg: two_bytes(arg, arg_high),
    };
    Some(Case {
        call,
        section,
        rest,
    })
}

// A number of two bytes, the lower one first.
fn two_bytes(low: u8, high: u8) -> usize {
    u16::from_le_bytes([low, high]) as usize
}

// Makes the call, and writes its word and its answer.
fn answer(rt: &impl Print, call: Call, s: &[u8]) -> io::Result<()> {
    let Call {
        op,
        order,
        at,
        end,
        arg,
    } = call;
    let Some((word, letter)) = CALLS.get((op as usize).wrapping_sub(1)).copied() else {
        return rt.write_all(b" is no call\n");
    };
    rt.write_all(word)?;
    case_calls::reading(rt, letter, order, s, at, end, arg)?;
    rt.write_all(b"\n")
}
