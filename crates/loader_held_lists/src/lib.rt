// The lists that a load with interruptions is lent, and their tests.
#![tactic(auto)]

ghost use Rattle.std.specs.Prelude.{◌≡◌, ◌&&◌, ◌||◌, ◌+◌, ltb, leb};
ghost use Rattle.device.specs.Parts.{start_of, length_of};
ghost use Rattle.loader_held_lists.specs.Listings.{some_of, past_array, in_loaded, short_room, room_number, held_number};

use device::Part;

// An address from `from` on, and below `to` unless there is no end.
fn lies(endless: bool, from: usize, to: usize, address: u32) -> bool
    ensures { result ≡ ((endless || ltb address to) && leb from address) }
{
    let at = address as usize;
    (endless | (at < to)) & (from <= at)
}

// Some address of the list does.
fn some_lies(endless: bool, from: usize, to: usize, addresses: &[u32]) -> bool
    ensures { result ≡ some_of (λ x. (endless || ltb x to) && leb from x) addresses.now }
{
    addresses.iter().any(|a| lies(endless, from, to, *a))
}

// The first address behind a block.
fn end_of(part: Part, block: u8) -> usize
    ensures { result ≡ start_of part block + length_of part block }
{
    device::start(part, block) + device::length(part, block)
}

// Refusal 5 of one address.
pub fn past_array(part: Part, address: u32) -> bool
    ensures { result ≡ past_array part address }
{
    lies(true, device::size(part), 0, address)
}

// Refusal 45 of one address.
pub fn in_loaded(part: Part, block: u8, address: u32) -> bool
    ensures { result ≡ in_loaded part block address }
{
    lies(
        false,
        device::start(part, block),
        end_of(part, block),
        address,
    )
}

// Refusal 37, by the units of the room.
fn short_room(word: bool, n: usize, room: usize) -> bool
    ensures { result ≡ short_room word n room }
{
    units::units_in(word, room) < n
}

// Refusals 46 and 37 of n addresses and a room of so many bytes, the first that applies, or 0.
pub fn room_number(word: bool, n: usize, room: usize) -> u8
    ensures { result ≡ room_number word n room }
{
    if 4096 < n {
        return 46;
    }
    if short_room(word, n, room) {
        return 37;
    }
    0
}

fn some_past(part: Part, addresses: &[u32]) -> bool
    ensures { result ≡ some_of (past_array part) addresses.now }
{
    some_lies(true, device::size(part), 0, addresses)
}

fn some_loaded(part: Part, block: u8, addresses: &[u32]) -> bool
    ensures { result ≡ some_of (in_loaded part block) addresses.now }
{
    some_lies(
        false,
        device::start(part, block),
        end_of(part, block),
        addresses,
    )
}

// Refusals 5, 45, 46 and 37, the first that applies, or 0. The room is counted in bytes.
pub fn list_number(part: Part, block: u8, addresses: &[u32], room: usize) -> u8
    ensures { result ≡ held_number part block addresses.now room }
{
    if some_past(part, addresses) {
        return 5;
    }
    if some_loaded(part, block, addresses) {
        return 45;
    }
    let word = part.word;
    room_number(word, addresses.len(), room)
}
