// The public calls by their C names: include/hamvukile.h is their manual. Each answers what the call of its own crate answers.
// A slice is a pointer and a length. Trimming, whose result is part of the caller's bytes, reaches C as start and length of the label call.
#![tactic(auto)]

ghost use Rattle.std.specs.Prelude.{◌≡◌};
ghost use Rattle.standard.specs.Encodings.{lent};
ghost use Rattle.labels_spec.specs.Labels.{label, naming};
ghost use Rattle.index_spec.specs.IndexCall.{index_line};
ghost use Rattle.reverse_index_spec.specs.Calls.{index_size, building, indexed_line};
ghost use Rattle.decoder.specs.Calls.{opening, feeding, finishing};
ghost use Rattle.in_place.specs.Replies.{Leaves};
ghost use Rattle.index_files.specs.Files.{file_naming};
ghost use Rattle.replacements_spec.specs.Calls.{Leaves as LeavesReplaced, feed_telling, finish_telling};
ghost use Rattle.clean.specs.Checking.{checking};
ghost use Rattle.encoder_spec.specs.Writer.{writer_call, writer_finish};
ghost use Rattle.indexed_writing.specs.Call.{indexed_call};
ghost use Rattle.list_spec.specs.ListCall.{list_call};

use clean::Checked;
use decoder::{Answer, Decoder};
use encoder_spec::Written;
use in_place::Reply;
use index_spec::Line;
use labels_spec::{Found, Named};
use list_spec::Listed;
use replacements_spec::Replacing;

// The version of the library, 0.10.0: 10,000 times major, 100 times minor, and patch.
#[unsafe(no_mangle)]
pub extern "C" fn hamvukile_version() -> u32
    ensures { result ≡ 1000 }
{
    1000
}

// The label call.
#[unsafe(no_mangle)]
pub extern "C" fn hamvukile_label(bytes: &[u8]) -> Found
    ensures { result ≡ label bytes.now }
{
    labels::find_label(bytes)
}

// The name call.
#[unsafe(no_mangle)]
pub extern "C" fn hamvukile_name(encoding: u8, room: &mut [u8]) -> Named
    ensures { (result ≡ (naming encoding room.old).answer) ×
        (room.new ≡ (naming encoding room.old).room) }
{
    labels::name(encoding, room)
}

// The names of the published index files: of an encoding's first table, and of its second.
#[unsafe(no_mangle)]
pub extern "C" fn hamvukile_first_index_name(encoding: u8, room: &mut [u8]) -> Named
    ensures { (result ≡ (file_naming 0 encoding room.old).answer) ×
        (room.new ≡ (file_naming 0 encoding room.old).room) }
{
    index_files::first_index_name(encoding, room)
}

#[unsafe(no_mangle)]
pub extern "C" fn hamvukile_second_index_name(encoding: u8, room: &mut [u8]) -> Named
    ensures { (result ≡ (file_naming 1 encoding room.old).answer) ×
        (room.new ≡ (file_naming 1 encoding room.old).room) }
{
    index_files::second_index_name(encoding, room)
}

// The index line call.
#[unsafe(no_mangle)]
pub extern "C" fn hamvukile_index_line(line: &[u8], table: &mut [u32]) -> Line
    ensures { (result ≡ (index_line line.now table.old).answer) ×
        (table.new ≡ (index_line line.now table.old).table) }
{
    index::index_line(line, table)
}

// The cells of an index.
#[unsafe(no_mangle)]
pub extern "C" fn hamvukile_index_size(cells: usize) -> usize
    ensures { result ≡ index_size cells }
{
    reverse_index::size(cells)
}

// Building an index.
#[unsafe(no_mangle)]
pub extern "C" fn hamvukile_build_index(encoding: u8, first: &[u32], index: &mut [u32]) -> u8
    ensures { (result ≡ (building encoding first.now index.old).refusal) ×
        (index.new ≡ (building encoding first.now index.old).index) }
{
    reverse_index::build(encoding, first, index)
}

// The index line call with an index.
#[unsafe(no_mangle)]
pub extern "C" fn hamvukile_index_line_indexed(
    line: &[u8],
    table: &mut [u32],
    index: &mut [u32],
) -> Line
    ensures { (result ≡ (indexed_line line.now table.old index.old).answer) ×
        (table.new ≡ (indexed_line line.now table.old index.old).table) ×
        (index.new ≡ (indexed_line line.now table.old index.old).index) }
{
    reverse_index::index_line(line, table, index)
}

// Opening.
#[unsafe(no_mangle)]
pub extern "C" fn hamvukile_open(encoding: u8, mode: u8, rule: u8) -> Answer
    ensures { result ≡ opening encoding mode rule }
{
    Decoder::open(encoding, mode, rule)
}

// Feed.
#[unsafe(no_mangle)]
pub extern "C" fn hamvukile_feed(
    decoder: Decoder,
    chunk: &[u8],
    first: &[u32],
    second: &[u32],
    room: &mut [u32],
) -> Answer
    ensures { (result ≡ (feeding decoder (lent first.now second.now)
        chunk.now room.old).answer) ×
        (room.new ≡ (feeding decoder (lent first.now second.now)
        chunk.now room.old).room) }
{
    decoder.feed(chunk, first, second, room)
}

// Finish.
#[unsafe(no_mangle)]
pub extern "C" fn hamvukile_finish(
    decoder: Decoder,
    first: &[u32],
    second: &[u32],
    room: &mut [u32],
) -> Answer
    ensures { (result ≡ (finishing decoder (lent first.now second.now) room.old).answer) ×
        (room.new ≡ (finishing decoder (lent first.now second.now) room.old).room) }
{
    decoder.finish(first, second, room)
}

// Feed and finish that also tell which sequences were replaced.
#[unsafe(no_mangle)]
pub extern "C" fn hamvukile_feed_replaced(
    decoder: Decoder,
    chunk: &[u8],
    first: &[u32],
    second: &[u32],
    room: &mut [u32],
    spans: &mut [u32],
) -> Replacing
    ensures { LeavesReplaced (feed_telling decoder (lent first.now second.now) chunk.now room.old
        spans.old) result room.new spans.new }
{
    replacements::feed(decoder, chunk, first, second, room, spans)
}

#[unsafe(no_mangle)]
pub extern "C" fn hamvukile_finish_replaced(
    decoder: Decoder,
    first: &[u32],
    second: &[u32],
    room: &mut [u32],
    spans: &mut [u32],
) -> Replacing
    ensures { LeavesReplaced (finish_telling decoder (lent first.now second.now) room.old
        spans.old) result room.new spans.new }
{
    replacements::finish(decoder, first, second, room, spans)
}

// Feed, on a decoder that is lent.
#[unsafe(no_mangle)]
pub extern "C" fn hamvukile_feed_in_place(
    decoder: &mut Decoder,
    chunk: &[u8],
    first: &[u32],
    second: &[u32],
    room: &mut [u32],
) -> Reply
    ensures { Leaves
        (feeding decoder.old (lent first.now second.now) chunk.now room.old)
        result decoder.new room.new }
{
    in_place::feed(decoder, chunk, first, second, room)
}

// Finish, on a decoder that is lent.
#[unsafe(no_mangle)]
pub extern "C" fn hamvukile_finish_in_place(
    decoder: &mut Decoder,
    first: &[u32],
    second: &[u32],
    room: &mut [u32],
) -> Reply
    ensures { Leaves (finishing decoder.old (lent first.now second.now) room.old)
        result decoder.new room.new }
{
    in_place::finish(decoder, first, second, room)
}

// Is a list clean?
#[unsafe(no_mangle)]
pub extern "C" fn hamvukile_check(
    encoding: u8,
    bytes: &[u8],
    first: &[u32],
    second: &[u32],
) -> Checked
    ensures { result ≡ checking encoding (lent first.now second.now) bytes.now }
{
    clean::check(encoding, bytes, first, second)
}

// Writing.
#[unsafe(no_mangle)]
pub extern "C" fn hamvukile_encode(
    encoding: u8,
    mode: u8,
    state: u8,
    scalars: &[u32],
    first: &[u32],
    second: &[u32],
    room: &mut [u8],
) -> Written
    ensures { (result ≡ (writer_call encoding mode state (lent first.now second.now)
        scalars.now room.old).answer) ×
        (room.new ≡ (writer_call encoding mode state (lent first.now second.now)
        scalars.now room.old).room) }
{
    encoder::encode(encoding, mode, state, scalars, first, second, room)
}

// Writing with an index.
#[unsafe(no_mangle)]
pub extern "C" fn hamvukile_encode_indexed(
    encoding: u8,
    mode: u8,
    state: u8,
    scalars: &[u32],
    first: &[u32],
    second: &[u32],
    index: &[u32],
    room: &mut [u8],
) -> Written
    ensures { (result ≡ (indexed_call encoding mode state (lent first.now second.now)
        index.now scalars.now room.old).answer) ×
        (room.new ≡ (indexed_call encoding mode state (lent first.now second.now)
        index.now scalars.now room.old).room) }
{
    encoder::encode_indexed(encoding, mode, state, scalars, first, second, index, room)
}

// The finish of a writing.
#[unsafe(no_mangle)]
pub extern "C" fn hamvukile_encode_finish(state: u8, room: &mut [u8]) -> Written
    ensures { (result ≡ (writer_finish state room.old).answer) ×
        (room.new ≡ (writer_finish state room.old).room) }
{
    encoder::finish(state, room)
}

// The list reader.
#[unsafe(no_mangle)]
pub extern "C" fn hamvukile_read_list(text: &[u32], names: &[u32], room: &mut [u64]) -> Listed
    ensures { (result ≡ (list_call text.now names.now room.old).answer) ×
        (room.new ≡ (list_call text.now names.now room.old).room) }
{
    list::read_list(text, names, room)
}
