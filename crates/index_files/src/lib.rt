// The names of the published index files, for hosts and programs that load them.
#![tactic(auto)]

ghost use Rattle.std.specs.Prelude.{◌≡◌};
ghost use Rattle.index_files.specs.Files.{file_naming};

use labels::put_name;
use labels_spec::Named;

// The file of each encoding's first table; an empty name where it has none.
const FIRST: &[&str] = &[
    "",
    "index-ibm866.txt",
    "index-iso-8859-2.txt",
    "index-iso-8859-3.txt",
    "index-iso-8859-4.txt",
    "index-iso-8859-5.txt",
    "index-iso-8859-6.txt",
    "index-iso-8859-7.txt",
    "index-iso-8859-8.txt",
    "index-iso-8859-8.txt",
    "index-iso-8859-10.txt",
    "index-iso-8859-13.txt",
    "index-iso-8859-14.txt",
    "index-iso-8859-15.txt",
    "index-iso-8859-16.txt",
    "index-koi8-r.txt",
    "index-koi8-u.txt",
    "index-macintosh.txt",
    "index-windows-874.txt",
    "index-windows-1250.txt",
    "index-windows-1251.txt",
    "",
    "index-windows-1253.txt",
    "index-windows-1254.txt",
    "index-windows-1255.txt",
    "index-windows-1256.txt",
    "index-windows-1257.txt",
    "index-windows-1258.txt",
    "index-x-mac-cyrillic.txt",
    "index-gb18030.txt",
    "index-gb18030.txt",
    "index-big5.txt",
    "index-jis0208.txt",
    "index-jis0208.txt",
    "index-jis0208.txt",
    "index-euc-kr.txt",
    "",
    "",
    "",
    "",
];

// The file of its second table. A list of its own and not one of pairs: no call reads both.
const SECOND: &[&str] = &[
    "",
    "",
    "",
    "",
    "",
    "",
    "",
    "",
    "",
    "",
    "",
    "",
    "",
    "",
    "",
    "",
    "",
    "",
    "",
    "",
    "",
    "",
    "",
    "",
    "",
    "",
    "",
    "",
    "",
    "index-gb18030-ranges.txt",
    "index-gb18030-ranges.txt",
    "",
    "index-jis0212.txt",
    "index-iso-2022-jp-katakana.txt",
    "",
    "",
    "",
    "",
    "",
    "",
];

// The file of an encoding's first table; an empty name where it has none.
pub fn first_index_name(encoding: u8, room: &mut [u8]) -> Named
    ensures { (result ≡ (file_naming 0 encoding room.old).answer) ×
        (room.new ≡ (file_naming 0 encoding room.old).room) }
{
    put_name(FIRST, encoding, room)
}

// The file of its second table; an empty name where it has none.
pub fn second_index_name(encoding: u8, room: &mut [u8]) -> Named
    ensures { (result ≡ (file_naming 1 encoding room.old).answer) ×
        (room.new ≡ (file_naming 1 encoding room.old).room) }
{
    put_name(SECOND, encoding, room)
}
