// What a name is.
ghost use Rattle.std.specs.Prelude.{◌≡◌};
ghost use Rattle.std.specs.List.{list_all};
ghost use Rattle.week_book.specs.Names.{is_name_byte, is_name};

/// The most bytes of a name.
const LONGEST_NAME: usize = 32;

fn is_name_byte(byte: u8) -> bool
    ensures { result ≡ is_name_byte byte }
{
    (b'!' <= byte && byte <= b'~') && !(byte == b',' || byte == b'"')
}

fn has_name_bytes(name: &[u8]) -> bool
    ensures { result ≡ list_all is_name_byte name.now }
{
    name.iter().all(|byte| is_name_byte(*byte))
}

/// Whether the bytes are a name: 1 to 32 ASCII characters from `!` to `~`, without comma and double quote.
pub fn is_name(name: &[u8]) -> bool
    ensures { result ≡ is_name name.now }
{
    let length = name.len();
    (1 <= length && length <= LONGEST_NAME) && has_name_bytes(name)
}
