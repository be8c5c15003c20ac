// What is printed of a packet.
ghost use Rattle.std.specs.Prelude.{◌≡◌, ℕ, ◌<◌, ◌≤◌, List, length, Some, IfOk, string_bytes};
ghost use Rattle.std.specs.List.{flat_map};
ghost use Rattle.std.specs.Fmt.{WritesOnOk};
ghost use Rattle.tally.specs.Counts.{counted_pairs};
ghost use Rattle.packet.specs.Faults.{tells};
ghost use Rattle.packet.specs.Messages.{meaning};
ghost use Rattle.packet.specs.Reading.{reading};
ghost use Rattle.packet_text.specs.Hex.{hex_digit, hex_text};
ghost use Rattle.packet_text.specs.Printing.{pair_text, code_text, note_text, message_text, accepted_text, refused_text, outcome_text};
ghost use Rattle.packet_text.specs.Lines.{kind_of, lawful_of, text_of, reply, asked_of};

use crate::line::{Asked, BodyKind, TallyKind};
use body::{Body, CallCode, Note};
use full::Full;
use listed::Listed;
use packet::{Fault, Head, Message};
use std::alloc::{AllocError, Global};
use std::{fmt, str};
use tally::CountedPairs;

// The hex digit for a number below 16.
fn hex_digit(n: u8) -> u8
    requires { n < 16 }
    ensures { result ≡ hex_digit n }
{
    if n < 10 { b'0' + n } else { b'a' + (n - 10) }
}

// How many bytes are printed at a time.
const PART: usize = 32;

// The hex digits of some bytes, written to the front of some room.
fn hex_digits<'a>(bytes: &[u8], room: &'a mut [u8; 64]) -> &'a str
    requires { length bytes.now ≤ 32 }
    ensures { result.now ≡ hex_text bytes.now }
{
    for (at, byte) in bytes.iter().enumerate() {
        room[2 * at] = hex_digit(*byte / 16);
        room[2 * at + 1] = hex_digit(*byte % 16);
    }
    // digits are characters by themselves
    let Ok(text) = str::from_utf8(&room[..2 * bytes.len()]) else {
        unreachable()
    };
    text
}

// Bytes as hex digits.
#[derive(Drop)]
struct Hex<'a>(&'a [u8]);

impl fmt::Display for Hex<'_> {
    ghost output = { λ hex. Some (hex_text hex.0.now) };

    fn fmt<W: fmt::Write>(&self, f: &mut fmt::Formatter<W>) -> fmt::Result {
        // many bytes at a time, since each write to a formatter costs as much as many digits
        let mut room = [0; 64];
        for part in self.0.chunks(PART) {
            f.write_str(hex_digits(part, &mut room))?;
        }
        Ok(())
    }
}

// The counted pairs of a tag.
#[derive(Drop)]
struct Pairs<'a, T>(&'a T);

impl<T: CountedPairs> fmt::Display for Pairs<'_, T> {
    ghost output = { λ pairs. Some (flat_map pair_text (counted_pairs (T.Tally.counts pairs.0.now))) };

    fn fmt<W: fmt::Write>(&self, f: &mut fmt::Formatter<W>) -> fmt::Result {
        for (pair, count) in self.0.pairs() {
            write!(f, " {} {} {count}", pair.station, pair.handset)?;
        }
        Ok(())
    }
}

// A kind of body that can be printed.
pub trait Printed: Body {
    // the text of a body, by its bytes
    ghost text: { List ℕ → List ℕ };

    fn print<W: fmt::Write>(&self, f: &mut fmt::Formatter<W>) -> fmt::Result
        ensures { WritesOnOk W.write_str_gives f.old result (text (Self.Body.bytes self.now)) f.new };
}

impl Printed for CallCode {
    ghost text = { code_text };

    fn print<W: fmt::Write>(&self, f: &mut fmt::Formatter<W>) -> fmt::Result {
        write!(f, " code {}", self.value)
    }
}

impl Printed for Note {
    ghost text = { note_text };

    fn print<W: fmt::Write>(&self, f: &mut fmt::Formatter<W>) -> fmt::Result {
        // a note's bytes are characters by themselves
        let Ok(text) = str::from_utf8(self.text()) else {
            unreachable()
        };
        write!(f, " note \"{text}\"")
    }
}

// A body of a message.
#[derive(Drop)]
struct BodyText<'a, B>(&'a B);

impl<B: Printed> fmt::Display for BodyText<'_, B> {
    ghost output = { λ shown. Some (B.Printed.text (B.Body.bytes shown.0.now)) };

    fn fmt<W: fmt::Write>(&self, f: &mut fmt::Formatter<W>) -> fmt::Result {
        self.0.print(f)
    }
}

// A message that is accepted, and its packet.
#[derive(Drop)]
struct Accepted<'a, T, B> {
    message: &'a Message<T, B>,
    packet: &'a [u8],
}

impl<T: CountedPairs, B: Printed> fmt::Display for Accepted<'_, T, B> {
    ghost output = { λ shown. Some (message_text B.Printed.text (meaning T.Tally.counts B.Body.bytes shown.message.now) shown.packet.now) };

    fn fmt<W: fmt::Write>(&self, f: &mut fmt::Formatter<W>) -> fmt::Result {
        let Head {
            station,
            sender,
            addressee,
            name,
        } = self.message.head();
        let tag = self.message.tag();
        let pairs = tag.counted();
        write!(f, "ok {station} {sender} {addressee} {name} {pairs}")?;
        write!(
            f,
            "{}{} {}",
            Pairs(tag),
            BodyText(self.message.body()),
            Hex(self.packet)
        )
    }
}

// Why a packet is refused.
#[derive(Drop)]
struct Refused(Fault);

impl fmt::Display for Refused {
    ghost output = { λ refused. Some (refused_text (tells refused.0)) };

    fn fmt<W: fmt::Write>(&self, f: &mut fmt::Formatter<W>) -> fmt::Result {
        write!(f, "no {} {}", self.0.number(), self.0.place())?;
        if let Some(pair) = self.0.pair() {
            write!(f, " {} {}", pair.station, pair.handset)?;
        }
        Ok(())
    }
}

// The most bytes of a packet: 256 pairs, and a body of 255 bytes. A buffer of that size, since packing writes over a buffer
// and takes no memory.
const LONGEST_PACKET: usize = 1293;

// What is printed of a message that is accepted.
fn accepted_text<T: CountedPairs, B: Printed>(
    heap: Global,
    message: &Message<T, B>,
) -> Result<String, AllocError>
    ensures { IfOk result (λ text. string_bytes text ≡ accepted_text B.Body.kind B.Printed.text (meaning T.Tally.counts B.Body.bytes message.now)) }
{
    // there is room for any packet
    let mut packet = [0; LONGEST_PACKET];
    let Ok(length) = packet_write::pack(message, &mut packet) else {
        unreachable()
    };
    let accepted = Accepted {
        message,
        packet: &packet[..length],
    };
    format!(in heap; "{accepted}")
}

// What is printed of a packet that is read with some kind of tally and of body.
fn outcome_text<T: CountedPairs, B: Printed>(
    heap: Global,
    packet: &[u8],
) -> Result<String, AllocError>
    ensures { IfOk result (λ text. string_bytes text ≡ outcome_text B.Body.kind B.Printed.text (reading B.Body.kind B.Body.lawful T.Tally.fits packet.now)) }
{
    match packet_read::read::<T, B>(packet) {
        Ok(message) => accepted_text(heap, &message),
        Err(fault) => format!(in heap; "{}", Refused(fault)),
    }
}

// The same, where the kind of body is asked for.
fn outcome_text_of<T: CountedPairs>(
    heap: Global,
    body: BodyKind,
    packet: &[u8],
) -> Result<String, AllocError>
    ensures { IfOk result (λ text. string_bytes text ≡ outcome_text (kind_of body) (text_of body) (reading (kind_of body) (lawful_of body) T.Tally.fits packet.now)) }
{
    match body {
        BodyKind::Code => outcome_text::<T, CallCode>(heap, packet),
        BodyKind::Note => outcome_text::<T, Note>(heap, packet),
    }
}

// What is printed of what is asked for.
pub(crate) fn reply(heap: Global, asked: &Asked<'_>) -> Result<String, AllocError>
    ensures { IfOk result (λ text. string_bytes text ≡ reply (asked_of asked.now)) }
{
    match asked.tally {
        TallyKind::Full => outcome_text_of::<Full>(heap, asked.body, asked.packet),
        TallyKind::Listed => outcome_text_of::<Listed>(heap, asked.body, asked.packet),
    }
}
