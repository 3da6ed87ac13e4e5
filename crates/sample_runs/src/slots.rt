/// The header of a slot.
pub const HEADER: &[u8] = b"ZCTL\x02\0\0\0";

/// The record of the identity ann behind its open gate: the next number of identities, the identity, and the serial 1.
pub const ANN_KEPT: &[u8] =
    b"\x01\x2b\0\0\0\x01\x02\x01\x01\x04\0\0\0\x02\0\0\0\x01\x05\x03\0\0\0\x01\x05\0\0\0\x03ann\0\x01\x01\x11\x08\0\0\0\x01\0\0\0\0\0\0\0";

/// Of a second identity, bob, with the serial 2.
pub const BOB_KEPT: &[u8] =
    b"\x01\x2b\0\0\0\x01\x02\x01\x01\x04\0\0\0\x03\0\0\0\x01\x05\x03\0\0\0\x02\x05\0\0\0\x03bob\0\x01\x01\x11\x08\0\0\0\x02\0\0\0\0\0\0\0";

/// Of the service web, with the serial 2.
pub const WEB_KEPT: &[u8] =
    b"\x01\x2b\0\0\0\x01\x02\x01\x02\x04\0\0\0\x02\0\0\0\x01\x05\x04\0\0\0\x01\x05\0\0\0\x03web\0\x01\x01\x11\x08\0\0\0\x02\0\0\0\0\0\0\0";

/// Of the policy p, by which all may dial all, of the count of the one pair that it grants behind ann and web, and of the serial 3.
pub const GRANT_KEPT: &[u8] =
    b"\x01\x41\0\0\0\x01\x02\x01\x05\x04\0\0\0\x02\0\0\0\x01\x05\x07\0\0\0\x01\x0a\0\0\0\x01p\x01\x01\x01\0\0\x01\0\0\x01\x09\x0c\0\0\0\x01\0\0\0\x01\x02\0\0\0\x01\0\x01\x01\x11\x08\0\0\0\x03\0\0\0\0\0\0\0";

/// Ann's slot: the header, her record, and a closed gate.
pub const ANN_SLOT: &[u8] =
    b"ZCTL\x02\0\0\0\x01\x2b\0\0\0\x01\x02\x01\x01\x04\0\0\0\x02\0\0\0\x01\x05\x03\0\0\0\x01\x05\0\0\0\x03ann\0\x01\x01\x11\x08\0\0\0\x01\0\0\0\0\0\0\0\0";

/// The slot that has the rows of ann and bob, and the serial 2, in one record.
pub const BOTH_SLOT: &[u8] =
    b"ZCTL\x02\0\0\0\x01\x3b\0\0\0\x01\x02\x01\x01\x04\0\0\0\x03\0\0\0\x01\x05\x03\0\0\0\x01\x05\0\0\0\x03ann\0\x01\x05\x03\0\0\0\x02\x05\0\0\0\x03bob\0\x01\x01\x11\x08\0\0\0\x02\0\0\0\0\0\0\0\0";

/// The same with the serial 1, as where ann was there before changes were counted.
pub const BOTH_ONCE: &[u8] =
    b"ZCTL\x02\0\0\0\x01\x3b\0\0\0\x01\x02\x01\x01\x04\0\0\0\x03\0\0\0\x01\x05\x03\0\0\0\x01\x05\0\0\0\x03ann\0\x01\x05\x03\0\0\0\x02\x05\0\0\0\x03bob\0\x01\x01\x11\x08\0\0\0\x01\0\0\0\0\0\0\0\0";

/// Ann's slot in the first format, which has no serial.
pub const OLD_ANN: &[u8] =
    b"ZCTL\x01\0\0\0\x01\x1c\0\0\0\x01\x02\x01\x01\x04\0\0\0\x02\0\0\0\x01\x05\x03\0\0\0\x01\x05\0\0\0\x03ann\0\0";

/// A slot without a record.
pub const BARE_SLOT: &[u8] = b"ZCTL\x02\0\0\0\0";

/// The marks of folders whose first slot stands, whose second one does, and whose first one does again.
pub const FIRST: &[u8] = b"\0";

pub const SECOND: &[u8] = b"\0\0";

pub const THIRD: &[u8] = b"\0\0\0";

/// The lines of folders that keep nothing, ann alone, and both identities.
pub const NOTHING: &[u8] =
    b"{\"circuits\":0,\"grants\":0,\"identities\":0,\"links\":0,\"policies\":0,\"routers\":0,\"services\":0,\"terminators\":0}\n";

pub const ANN_ALONE: &[u8] =
    b"{\"circuits\":0,\"grants\":0,\"identities\":1,\"links\":0,\"policies\":0,\"routers\":0,\"services\":0,\"terminators\":0}\n";

pub const BOTH: &[u8] =
    b"{\"circuits\":0,\"grants\":0,\"identities\":2,\"links\":0,\"policies\":0,\"routers\":0,\"services\":0,\"terminators\":0}\n";
