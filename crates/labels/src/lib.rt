// Labels to encodings: document 01, "Labels and encoding numbers".
#![tactic(auto)]

mod tables;

ghost use Rattle.std.specs.Prelude.{◌≡◌, ◌++◌, ◌≤◌, map, length, drop};
ghost use Rattle.std.specs.Char.{to_ascii_lowercase};
ghost use Rattle.std.specs.Str.{bytes_eq};
ghost use Rattle.std.specs.List.{slice_get};
ghost use Rattle.labels_spec.specs.Labels.{table, fold, start, TrimmedPart, find, label, naming};
ghost use Rattle.labels.specs.LookUp.{seek, look_up, number};
ghost use Rattle.labels.specs.Writing.{written};

use labels_spec::{Found, Named};
use tables::{LABELS, NAMES};

// How many bytes of white space stand in front.
fn front(s: &[u8]) -> usize
    ensures value { result ≡ start s.now }
    ensures within { result ≤ length s.now }
{
    s.len() - s.trim_ascii_start().len()
}

// The label without the white space on both sides, as a part of the caller's bytes: cut by numbers, since the contracts of std's trimming
// do not say where its answer lies.
pub fn trim(label: &[u8]) -> &[u8]
    ensures { TrimmedPart label.now label.entry.ref_ptr result.now result.ref_ptr }
{
    let start = front(label);
    let rest = &label[start..];
    &rest[..rest.trim_ascii_end().len()]
}

// Are two labels the same, whatever the case of their letters? The last bytes are told first: few labels of a length share them.
fn alike(label: &[u8], known: &[u8]) -> bool
    ensures { result ≡ bytes_eq (map to_ascii_lowercase label.now) (map to_ascii_lowercase known.now) }
{
    let n = label.len();
    if n != known.len() {
        return false;
    }
    if n != 0 && !label[n - 1].eq_ignore_ascii_case(&known[n - 1]) {
        return false;
    }
    label.eq_ignore_ascii_case(known)
}

// The encoding that a group gives for a label, whatever the case of its letters.
fn seek(label: &[u8], group: &[(&str, u8)]) -> Option<u8>
    ensures { result ≡ seek (map to_ascii_lowercase label.now) group.now }
{
    group
        .iter()
        .find(|(known, _)| alike(label, known.as_bytes()))
        .map(|(_, encoding)| *encoding)
}

// The encoding of a label, in groups by length: the labels of n bytes at place n.
fn look_up(label: &[u8], groups: &[&[(&str, u8)]]) -> Option<u8>
    ensures { result ≡ look_up (map to_ascii_lowercase label.now) groups.now }
{
    seek(label, groups.get(label.len())?)
}

// The encoding of a label, whatever the case of its letters.
fn encoding_of(label: &[u8]) -> Option<u8>
    ensures { result ≡ number (find (map fold label.now) 0 table) }
{
    look_up(label, LABELS)
}

// The label call.
pub fn find_label(bytes: &[u8]) -> Found
    ensures { result ≡ label bytes.now }
{
    let part = trim(bytes);
    match encoding_of(part) {
        Some(encoding) => Found {
            start: front(bytes),
            length: part.len(),
            refusal: 0,
            encoding,
        },
        None => Found {
            start: 0,
            length: 0,
            refusal: 1,
            encoding: 0,
        },
    }
}

// Copies bytes to the front of the room. Not by `copy_from_slice`, which would be a call of memmove.
fn copy(bytes: &[u8], room: &mut [u8])
    requires { length bytes.now ≤ length room.old }
    ensures { room.new ≡ bytes.now ++ drop (length bytes.now) room.old }
{
    for i in 0..bytes.len() {
        room[i] = bytes[i];
    }
}

// One of some names, written to the front of the room.
pub fn put_name(names: &[&str], number: u8, room: &mut [u8]) -> Named
    ensures answer { result ≡ (written (slice_get (map (λ n. n.now) names.now) number) room.old).answer }
    ensures after { room.new ≡ (written (slice_get (map (λ n. n.now) names.now) number) room.old).room }
{
    let Some(name) = names.get(usize::from(number)) else {
        return Named {
            length: 0,
            refusal: 2,
        };
    };
    let n = name.len();
    if room.len() < n {
        return Named {
            length: 0,
            refusal: 7,
        };
    }
    copy(name.as_bytes(), room);
    Named {
        length: n,
        refusal: 0,
    }
}

// The name call: writes the name of an encoding to the front of the room.
pub fn name(encoding: u8, room: &mut [u8]) -> Named
    ensures { (result ≡ (naming encoding room.old).answer) ×
        (room.new ≡ (naming encoding room.old).room) }
{
    put_name(NAMES, encoding, room)
}
