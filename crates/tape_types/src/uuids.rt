ghost use Rattle.std.specs.Prelude.{◌≡◌, Some};
ghost use Rattle.tape_types.specs.Uuids.{uuid_in, uuid_text};

use uuid::Uuid;

/// The text of a UUID: 36 characters with hyphens, in lower case.
pub fn uuid_text(uuid: u128) -> [u8; 36]
    ensures text { result ≡ uuid_text uuid }
    ensures parsed { uuid_in result ≡ Some uuid }
{
    let mut buffer = Uuid::encode_buffer();
    let text = Uuid::from_u128(uuid).hyphenated().encode_lower(&mut buffer);
    let mut bytes = [0; 36];
    bytes.copy_from_slice(text.as_bytes());
    bytes
}

/// The UUID of a text of 36 characters with hyphens, its letters in either case; none of
/// every other text.
pub fn parse_uuid(text: &[u8]) -> Option<u128>
    ensures { result ≡ uuid_in text.now }
{
    if text.len() != 36 {
        return None;
    }
    match Uuid::try_parse_ascii(text) {
        Ok(uuid) => Some(uuid.as_u128()),
        Err(_) => None,
    }
}
