// The keys that a header must or may have.
// The keys of the support block come together or not at all, the others are required, and any other key is skipped.
ghost use Rattle.std.specs.Prelude.{◌≡◌};
ghost use Rattle.header.specs.Keys.{name, code, twin};

// The keys by their codes.
#[derive(Clone, Copy)]
pub(crate) enum Key {
    XmlSize = 1,
    XmlPlace = 2,
    SupportSize = 3,
    SupportPlace = 4,
    PvpSize = 5,
    PvpPlace = 6,
    SignalSize = 7,
    SignalPlace = 8,
    Classification = 9,
    ReleaseInfo = 10,
}

// The key of code i + 1 stands at i.
pub(crate) const KEYS: [Key; 10] = [
    Key::XmlSize,
    Key::XmlPlace,
    Key::SupportSize,
    Key::SupportPlace,
    Key::PvpSize,
    Key::PvpPlace,
    Key::SignalSize,
    Key::SignalPlace,
    Key::Classification,
    Key::ReleaseInfo,
];

impl Key {
    // The code, by its name: `u64::from(key)` would say less.
    pub(crate) fn code(self) -> u64
        ensures { result ≡ code self }
    {
        self as u64
    }

    pub(crate) fn name(self) -> &'static [u8]
        ensures { result.now ≡ name self }
    {
        match self {
            Key::XmlSize => b"XML_BLOCK_SIZE",
            Key::XmlPlace => b"XML_BLOCK_BYTE_OFFSET",
            Key::SupportSize => b"SUPPORT_BLOCK_SIZE",
            Key::SupportPlace => b"SUPPORT_BLOCK_BYTE_OFFSET",
            Key::PvpSize => b"PVP_BLOCK_SIZE",
            Key::PvpPlace => b"PVP_BLOCK_BYTE_OFFSET",
            Key::SignalSize => b"SIGNAL_BLOCK_SIZE",
            Key::SignalPlace => b"SIGNAL_BLOCK_BYTE_OFFSET",
            Key::Classification => b"CLASSIFICATION",
            Key::ReleaseInfo => b"RELEASE_INFO",
        }
    }

    // The key that this one comes with, where the two may be left out together.
    pub(crate) fn twin(self) -> Option<Key>
        ensures { result ≡ twin self }
    {
        match self {
            Key::SupportSize => Some(Key::SupportPlace),
            Key::SupportPlace => Some(Key::SupportSize),
            _ => None,
        }
    }
}
