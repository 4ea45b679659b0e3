// Addresses in a text.
ghost use Rattle.std.specs.Prelude.{◌≡◌, ◌≤◌, ◌+◌, ◌++◌, length, take, drop, MatchOption, IfSome, Some, None, flat_map, replicate, slice_index, [], ℕ, ◌<◌, ◌-◌};
ghost use Rattle.std.specs.Option.{option_map};
ghost use Rattle.streamkey.specs.declared.addr.Addr.TheVariants.{V4, V6};
ghost use Rattle.capfilter.specs.Numbers.{numbers, parts};
ghost use Rattle.capfilter.specs.Addresses.{separator, number_in, most_in, version_4, version_6, address, round_gap, some_groups, group_bytes, of_texts, of_halves, of_groups, groups};

use crate::parts::cut;
use streamkey::Addr;
use textout::read_number;

/// How the numbers of an address are written: four octets with dots, or groups of hexadecimal digits with colons.
#[derive(Clone, Copy)]
enum Style {
    Dotted,
    Colons,
}

fn separator_of(style: Style) -> u8
    ensures { result ≡ separator style }
{
    match style {
        Style::Dotted => b'.',
        Style::Colons => b':',
    }
}

fn number_at(style: Style, text: &[u8]) -> Option<u16>
    ensures number { result ≡ number_in style text.now }
    ensures within { IfSome result (λ n. n ≤ most_in style) }
{
    let number = match style {
        Style::Dotted => read_number(text, 10, 3, 255),
        Style::Colons => read_number(text, 16, 4, 65_535),
    };
    match number {
        None => None,
        Some(n) => Some(n as u16),
    }
}

/// Reads the numbers of a text, at most `most` of them, and answers how many they are.
fn read_numbers(text: &[u8], style: Style, most: usize, into: &mut [u16; 8]) -> Option<usize>
    requires { most ≤ 8 }
    ensures numbers { MatchOption result (numbers most (number_in style) (parts (separator style) text.now) ≡ None)
        (λ n. (n ≤ most) × (numbers most (number_in style) (parts (separator style) text.now) ≡ Some (take n into.new))) }
    ensures within { IfSome result (λ n. (i : ℕ) → i < n → slice_index into.new i ≤ most_in style) }
{
    let mut rest = text;
    let mut count = 0;
    'parts: loop {
        let (part, more) = cut(rest, separator_of(style));
        if count == most {
            return None;
        }
        into[count] = number_at(style, part)?;
        count += 1;
        match more {
            None => return Some(count),
            Some(next) => rest = next,
        }
    }
}

#[tactic(auto, unfolding(crate::specs::Addresses::version_4))]
fn version_4_of(text: &[u8]) -> Option<[u8; 4]>
    ensures { option_map (λ bytes. V4 bytes) result ≡ version_4 text.now }
{
    let mut octets = [0u16; 8];
    let count = read_numbers(text, Style::Dotted, 4, &mut octets)?;
    if count != 4 {
        return None;
    }
    Some([
        octets[0] as u8,
        octets[1] as u8,
        octets[2] as u8,
        octets[3] as u8,
    ])
}

/// Where the first `::` stands.
fn gap_at(text: &[u8]) -> Option<usize>
    ensures { MatchOption result (round_gap text.now ≡ None)
        (λ at. (at + 2 ≤ length text.now) × (round_gap text.now ≡ Some (take at text.now, drop (at + 2) text.now))) }
{
    let last = text.len().saturating_sub(1);
    for at in 0..last {
        if text[at] == b':' && text[at + 1] == b':' {
            return Some(at);
        }
    }
    None
}

fn group_bytes_of(groups: &[u16; 8]) -> [u8; 16]
    ensures { result ≡ flat_map group_bytes groups.now }
{
    let mut bytes = [0u8; 16];
    for i in 0..8 {
        bytes[2 * i] = (groups[i] / 256) as u8;
        bytes[2 * i + 1] = (groups[i] % 256) as u8;
    }
    bytes
}

/// Zeros between the front and the back.
fn filled(front: &[u16; 8], front_len: usize, back: &[u16; 8], back_len: usize) -> [u16; 8]
    requires { front_len + back_len ≤ 8 }
    ensures { result ≡ take front_len front.now ++ replicate (8 - (front_len + back_len)) 0 ++ take back_len back.now }
{
    let mut all = [0u16; 8];
    all[..front_len].copy_from_slice(&front[..front_len]);
    all[8 - back_len..].copy_from_slice(&back[..back_len]);
    all
}

/// Reads groups of one side of a gap, where none may stand too.
fn read_side(text: &[u8], into: &mut [u16; 8]) -> Option<usize>
    ensures { MatchOption result (some_groups text.now ≡ None) (λ n. (n ≤ 8) × (some_groups text.now ≡ Some (take n into.new))) }
{
    if text.is_empty() {
        return Some(0);
    }
    read_numbers(text, Style::Colons, 8, into)
}

fn halves_of(front: &[u8], back: &[u8]) -> Option<[u8; 16]>
    ensures { option_map (λ bytes. V6 bytes) result ≡ of_texts (Some (front.now, back.now)) [] }
{
    let mut front_groups = [0u16; 8];
    let mut back_groups = [0u16; 8];
    let front_len = read_side(front, &mut front_groups)?;
    let back_len = read_side(back, &mut back_groups)?;
    if front_len + back_len > 7 {
        return None;
    }
    let groups = filled(&front_groups, front_len, &back_groups, back_len);
    Some(group_bytes_of(&groups))
}

fn all_groups_of(text: &[u8]) -> Option<[u8; 16]>
    ensures { option_map (λ bytes. V6 bytes) result ≡ of_texts None text.now }
{
    let mut groups = [0u16; 8];
    let count = read_numbers(text, Style::Colons, 8, &mut groups)?;
    if count != 8 {
        return None;
    }
    Some(group_bytes_of(&groups))
}

#[tactic(auto, unfolding(crate::specs::Addresses::version_6))]
fn version_6_of(text: &[u8]) -> Option<[u8; 16]>
    ensures { option_map (λ bytes. V6 bytes) result ≡ version_6 text.now }
{
    match gap_at(text) {
        None => all_groups_of(text),
        Some(at) => halves_of(&text[..at], &text[at + 2..]),
    }
}

/// The address that a text is.
#[tactic(auto, unfolding(crate::specs::Addresses::address))]
pub(crate) fn address_of(text: &[u8]) -> Option<Addr>
    ensures { result ≡ address text.now }
{
    if let Some(bytes) = version_4_of(text) {
        return Some(Addr::V4(bytes));
    }
    match version_6_of(text) {
        None => None,
        Some(bytes) => Some(Addr::V6(bytes)),
    }
}
