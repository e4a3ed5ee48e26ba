// The heads of records, read and written.
ghost use Rattle.std.specs.Prelude.{◌≡◌, ◌==◌, if◌then◌else◌, length, Some, None};
ghost use Rattle.std.specs.Int.{w32, from_be_bytes, is_in_range};
ghost use Rattle.image_format.specs.declared.heads.Head.TheVariants as kinds;
ghost use Rattle.image_format.specs.Records.{IsHead, head_bytes, head_of, size_of};

/// What the head of a record says.
#[derive(Clone, Copy, Debug, PartialEq, Eq)]
pub enum Head {
    /// A block of so many bytes, which follow.
    Block(u32),
    /// A file mark.
    Mark,
    /// What can't be read.
    Torn,
}

impl Head {
    /// How many bytes follow it.
    pub fn size(self) -> u32
        ensures { result ≡ size_of self }
    {
        match self {
            Head::Block(size) => size,
            Head::Mark => 0,
            Head::Torn => 0,
        }
    }
}

/// The bytes of a head.
pub fn encode_head(head: Head) -> [u8; 5]
    requires { IsHead head }
    ensures { result ≡ head_bytes head }
{
    match head {
        Head::Block(size) => {
            let mut bytes = [b'B'; 5];
            bytes[1..].copy_from_slice(&size.to_be_bytes());
            bytes
        }
        Head::Mark => [b'M', 0, 0, 0, 0],
        Head::Torn => [b'T', 0, 0, 0, 0],
    }
}

/// What the bytes of a head say: a block of 1 to 1,048,576 bytes, or a mark or what is torn with four zero bytes.
pub fn decode_head(bytes: &[u8; 5]) -> Option<Head>
    ensures { result ≡ head_of bytes.now }
{
    let size = size_in(&bytes[1..5]);
    match bytes[0] {
        b'B' => block_of(size),
        b'M' => bare(size, Head::Mark),
        b'T' => bare(size, Head::Torn),
        _ => None,
    }
}

fn block_of(size: u32) -> Option<Head>
    ensures { result ≡ (if is_in_range 1 1048576 size then Some (kinds.Block size) else None) }
{
    if (1..=1_048_576).contains(&size) {
        return Some(Head::Block(size));
    }
    None
}

fn bare(size: u32, head: Head) -> Option<Head>
    ensures { result ≡ (if size == 0 then Some head else None) }
{
    if size == 0 {
        return Some(head);
    }
    None
}

fn size_in(bytes: &[u8]) -> u32
    requires { length bytes.now ≡ 4 }
    ensures { result ≡ from_be_bytes w32 bytes.now }
{
    let mut size = [0; 4];
    size.copy_from_slice(bytes);
    u32::from_be_bytes(size)
}
