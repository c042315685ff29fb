//! Reading a recording.
ghost use Rattle.std.specs.Prelude.{◌≡◌, ◌≤◌, Ok, Err, IfOk, IfErr, suc, length};
ghost use Rattle.bar_record.specs.Code.Inputs.{inputs_left};
ghost use Rattle.bar_record.specs.Pacing.{is_datagram, run_after, ticks_in};
ghost use Rattle.bar_record.specs.Recording.{head_bytes, inputs_from, recording_of, ticks_put};
ghost use Rattle.bar_wire.specs.Inputs.{plain_input};

use crate::first::{First, first_of};
use crate::{Items, Paced, RecordFault};
use bar_wire::Input;

/// How many bytes a head has.
const HEAD_LEN: usize = 15;

/// The head of a party's recording.
pub fn head(id: &[u8; 8], party: u16) -> [u8; HEAD_LEN]
    ensures { result ≡ head_bytes id.now party }
{
    let [a, b, c, d, e, f, g, h] = *id;
    let [high, low] = party.to_be_bytes();
    [b'B', b'A', b'R', b'L', 1, a, b, c, d, e, f, g, h, high, low]
}

/// How many ticks an input is.
fn ticks_in(input: &Input<'_>) -> u32
    ensures value { result ≡ ticks_in (plain_input input.now) }
    ensures one { result ≤ 1 }
{
    match input {
        Input::Tick => 1,
        Input::Datagram(_) => 0,
    }
}

/// How many ticks are inserted before an input, which is counted.
fn ticks_put(paced: &mut Paced, input: &Input<'_>) -> u32
    ensures value { result ≡ ticks_put paced.old (plain_input input.now) }
    ensures one { result ≤ 1 }
    ensures count { paced.new ≡ run_after paced.old (is_datagram (plain_input input.now)) }
{
    let is_datagram = matches!(input, Input::Datagram(_));
    u32::from(paced.due(is_datagram))
}

/// The inputs of the entries after a head, up to the end.
fn entries_of(bytes: &[u8], last: u32) -> Result<Items<'_>, RecordFault>
    ensures ok { IfOk result (λ items. inputs_from (suc (length bytes.now)) last 0 0 15 bytes.now ≡ Ok (inputs_left items)) }
    ensures err { IfErr result (λ fault. inputs_from (suc (length bytes.now)) last 0 0 15 bytes.now ≡ Err fault) }
{
    let mut rest = bytes;
    let mut ticks: u32 = 0;
    let mut paced = Paced::new();
    'entries: for left in 0..bytes.len() + 1 {
        let at = (HEAD_LEN + (bytes.len() - rest.len())) as u64;
        match first_of(rest) {
            First::NoByte => return Err(RecordFault::NoEnd),
            First::End(others) => {
                if others.is_empty() {
                    return Ok(Items { left, bytes });
                }
                return Err(RecordFault::AfterEnd);
            }
            First::NoEntry => return Err(RecordFault::BadEntry { at }),
            First::Entry(input, others) => {
                let put = ticks_put(&mut paced, &input);
                if last - ticks <= put {
                    return Err(RecordFault::AfterLast { at });
                }
                let own = ticks_in(&input);
                ticks += put + own;
                rest = others;
            }
        }
    }
    Err(RecordFault::NoEnd)
}

/// Reads a party's recording, or reports its first fault from the left; `last` is the number of the session's last tick. Ticks are counted
/// as paced, including those that are inserted before datagrams.
pub fn read<'a>(
    bytes: &'a [u8],
    id: &[u8; 8],
    party: u16,
    last: u32,
) -> Result<Items<'a>, RecordFault>
    ensures ok { IfOk result (λ items. recording_of id.now party last bytes.now ≡ Ok (inputs_left items)) }
    ensures err { IfErr result (λ fault. recording_of id.now party last bytes.now ≡ Err fault) }
{
    if bytes.len() < HEAD_LEN {
        return Err(RecordFault::BadHead);
    }
    let (front, entries) = bytes.split_at(HEAD_LEN);
    if front != head(id, party).as_slice() {
        return Err(RecordFault::BadHead);
    }
    entries_of(entries, last)
}
