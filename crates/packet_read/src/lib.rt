// Reading packets: which message a packet carries, or why it is refused.
#![tactic(auto)]

ghost use Rattle.std.specs.Prelude.{◌≡◌, suc, ◌+◌, ◌-◌, ◌*◌, ◌<◌, ◌≤◌, ◌&&◌, length, IfOk, Some, OnOk, nat_le};
ghost use Rattle.tally.specs.Pairs.{inside, rank};
ghost use Rattle.tally.specs.Counts.{raised};
ghost use Rattle.tally.specs.Answers.{raising};
ghost use Rattle.station.specs.Faults.{carried};
ghost use Rattle.questions.specs.Asking.{first_no};
ghost use Rattle.packet.specs.declared.fault.Fault.TheVariants.{Counts as FaultCounts};
ghost use Rattle.packet.specs.Layout.{pair_from, counts_in, pairs_told, body_place, body_in, head_in};
ghost use Rattle.packet.specs.Messages.{meaning};
ghost use Rattle.packet.specs.Packing.{packet_bytes};
ghost use Rattle.packet.specs.Reading.{opening_questions, head_questions, with_pair, pair_questions, pairs_questions, body_questions, reading};
ghost use Rattle.packet_read.specs.Fields.{packet, asked, Takes, placed, outcome};

use body::Body;
use packet::{Fault, Head, Message};
use station::StationFault;
use tally::{MOST, Pair, Tally};

mod fields;
mod reader;

use reader::Reader;

// The mark and the version; the place after them.
fn opening(bytes: &[u8]) -> Result<usize, Fault>
    ensures asks { asked result ≡ first_no (opening_questions bytes.now) }
    ensures past { IfOk result (λ place. (place ≡ 5) × (5 ≤ length bytes.now)) }
{
    match bytes {
        [b'N', b'R', b'S', 0, 1, rest @ ..] => Ok(bytes.len() - rest.len()),
        [b'N', b'R', b'S', _, _, ..] => Err(Fault::Version),
        [b'N', b'R', b'S', ..] => Err(Fault::Short(bytes.len())),
        [_, _, _, ..] => Err(Fault::Mark),
        _ => Err(Fault::Short(bytes.len())),
    }
}

// The fields of one size after the version: the body's kind, the head, and the number of pairs.
fn head<B: Body>(reader: &mut Reader) -> Result<(Head, u16), Fault>
    requires { reader.old.place ≡ 5 }
    ensures { Takes reader.old reader.new result 8 (head_questions B.Body.kind (packet reader.old))
        (λ x. (x.0 ≡ head_in (packet reader.old)) × (x.1 ≡ pairs_told (packet reader.old))) }
{
    reader.kind(B::kind())?;
    let station = reader.field(Reader::byte, |n| n < 8)?;
    let sender = reader.field(Reader::byte, |n| n < 32)?;
    let addressee = reader.field(Reader::byte, |n| n < 32 && sender != n)?;
    let name = reader.field(Reader::word, |n| n < 4096)?;
    let pairs = reader.word()?;
    Ok((
        Head {
            station,
            sender,
            addressee,
            name,
        },
        pairs,
    ))
}

// A station's fault, at the byte place of a pair: the project wants the tally's refusal turned by `From` all the way up.
#[derive(Clone, Copy)]
struct Misfit {
    place: usize,
    fault: StationFault,
}

impl From<Misfit> for Fault {
    ghost from_gives = { λ m f. f ≡ FaultCounts m.place m.fault };

    fn from(misfit: Misfit) -> Fault {
        Fault::Counts(misfit.place, misfit.fault)
    }
}

// Raises a pair of the packet in the tag; a refusal is carried whole, with the pair's byte place.
fn raise_at<T: Tally>(tag: &mut T, place: usize, pair: Pair, count: u16) -> Result<(), Misfit>
    ensures answers { result ≡ placed place (carried (raising T.fits (T.counts tag.old) pair count)) }
    ensures leaves { OnOk result (T.counts tag.new ≡ raised (T.counts tag.old) pair count) }
{
    station::raise(tag, pair, count).map_err(|fault| Misfit { place, fault })
}

// Is the pair in range, at a place of the order or after it, and does it count 1 to 8,191?
fn rises_from(least: usize, pair: Pair, count: u16) -> bool
    ensures { result ≡ (inside pair && (nat_le least (rank pair) && (nat_le 1 count && nat_le count 8191))) }
{
    pair.in_range() && least <= pair.rank() && (1..=MOST).contains(&count)
}

// The next pair, into the tag; the least place in the order that the one after it may have.
fn one_pair<T: Tally>(reader: &mut Reader, tag: &mut T, least: usize) -> Result<usize, Fault>
    ensures { Takes reader.old reader.new result 4 (pair_questions T.fits (packet reader.old) reader.old.place least (T.counts tag.old))
        (λ next. (next ≡ suc (rank (pair_from (packet reader.old) reader.old.place))) × (T.counts tag.new ≡ with_pair (packet reader.old) reader.old.place (T.counts tag.old))) }
{
    let place = reader.place;
    let (pair, count) = reader.pair()?;
    if !rises_from(least, pair, count) {
        return Err(Fault::Order(place));
    }
    raise_at(tag, place, pair, count)?;
    Ok(pair.rank() + 1)
}

// So many pairs, into a blank tally.
fn pairs<T: Tally>(reader: &mut Reader, count: u16) -> Result<T, Fault>
    requires { reader.old.place ≡ 13 }
    ensures { Takes reader.old reader.new result (4 * count) (pairs_questions T.fits (packet reader.old) 0 count)
        (λ tag. T.counts tag ≡ counts_in (packet reader.old) count) }
{
    // A fold is no plainer: it would carry the tag and the least place together, and change the reader besides.
    let mut tag = T::blank();
    let mut least = 0;
    for _ in 0..count {
        least = one_pair(reader, &mut tag, least)?;
    }
    Ok(tag)
}

// The body, up to the packet's end.
fn body<B: Body>(reader: &mut Reader) -> Result<B, Fault>
    requires { reader.old.place ≡ body_place (packet reader.old) }
    ensures asks { asked result ≡ first_no (body_questions B.lawful (packet reader.old)) }
    ensures reads { IfOk result (λ b. B.bytes b ≡ body_in (packet reader.old)) }
{
    let place = reader.place;
    let len = reader.byte()?;
    let told = reader.bytes(len)?;
    let body = B::read(told).ok_or(Fault::Unlawful(place))?;
    reader.end()?;
    Ok(body)
}

// The message that a packet carries, its tag in a tally of the kind T and its body of the kind B; or why it is refused.
// An accepted packet packs to the same bytes.
pub fn read<T: Tally, B: Body>(packet: &[u8]) -> Result<Message<T, B>, Fault>
    ensures answers { outcome T.Tally.counts B.Body.bytes result ≡ reading B.Body.kind B.Body.lawful T.Tally.fits packet.now }
    ensures packs { IfOk result (λ m. packet_bytes B.Body.kind (meaning T.Tally.counts B.Body.bytes m) ≡ packet.now) }
{
    let place = opening(packet)?;
    let mut reader = Reader { packet, place };
    let (head, count) = head::<B>(&mut reader)?;
    let tag = pairs(&mut reader, count)?;
    let body = body(&mut reader)?;
    let Some(message) = Message::new(head, tag, body) else {
        unreachable()
    };
    Ok(message)
}
