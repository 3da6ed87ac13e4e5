//! Parts of inputs, of what is said and of folders, laid out by hand, and the bytes of some of them.

use crate::frames::{ANN, EXISTS, MADE};
use crate::slots::{
    ANN_ALONE, ANN_KEPT, ANN_SLOT, BARE_SLOT, BOB_KEPT, BOTH, BOTH_SLOT, FIRST, GRANT_KEPT, HEADER,
    NOTHING, SECOND, THIRD, WEB_KEPT,
};
use std::alloc::{AllocError, Global};
use ziti_desk::Images;

/// Parts that have names elsewhere too.
const KNOWN: &[(&str, &[u8])] = &[
    ("ANN", ANN),
    ("MADE", MADE),
    ("EXISTS", EXISTS),
    ("HEADER", HEADER),
    ("ANN_KEPT", ANN_KEPT),
    ("BOB_KEPT", BOB_KEPT),
    ("WEB_KEPT", WEB_KEPT),
    ("GRANT_KEPT", GRANT_KEPT),
    ("ANN_SLOT", ANN_SLOT),
    ("BOTH_SLOT", BOTH_SLOT),
    ("BARE_SLOT", BARE_SLOT),
    ("FIRST", FIRST),
    ("SECOND", SECOND),
    ("THIRD", THIRD),
    ("NOTHING", NOTHING),
    ("ANN_ALONE", ANN_ALONE),
    ("BOTH", BOTH),
];

/// More parts by their names. `\0` stands for a byte 0, and `\x` stands before two digits of a byte.
const PARTS: &str = r##"
# A frame of content type 2, and its reply as the first one.
RESULT \x03\x06\x09\x0c\x02\0\0\0\x05\0\0\0\0\0\0\0\0\0\0\0
UNSUPPORTED \x03\x06\x09\x0c\x02\0\0\0\0\0\0\0\x15\0\0\0\x24\0\0\0\x01\0\0\0\x04\0\0\0\x05\0\0\0\x02\0\0\0\x01\0\0\0\0{"code":10,"name":"UnsupportedType"}
# A CreateIdentity with the body `{}`, and its reply as the first one.
NAMELESS \x03\x06\x09\x0c\xe8\x03\0\0\x05\0\0\0\0\0\0\0\x02\0\0\0{}
BAD_BODY \x03\x06\x09\x0c\x02\0\0\0\0\0\0\0\x15\0\0\0\x3e\0\0\0\x01\0\0\0\x04\0\0\0\x05\0\0\0\x02\0\0\0\x01\0\0\0\0{"code":11,"field":"name","name":"BadBody","reason":"Missing"}
# A Hello of the token `id` with a body that is not read, and its reply as the first one: content type 2, success, no body.
HELLO \x03\x06\x09\x0c\0\0\0\0\x09\0\0\0\x0a\0\0\0\x03\0\0\0\0\0\0\0\x02\0\0\0idabc
GREETED \x03\x06\x09\x0c\x02\0\0\0\0\0\0\0\x15\0\0\0\0\0\0\0\x01\0\0\0\x04\0\0\0\x09\0\0\0\x02\0\0\0\x01\0\0\0\x01
# The same Hello of sequence 0, and its reply.
OPENING \x03\x06\x09\x0c\0\0\0\0\0\0\0\0\x0a\0\0\0\x03\0\0\0\0\0\0\0\x02\0\0\0idabc
OPENED \x03\x06\x09\x0c\x02\0\0\0\0\0\0\0\x15\0\0\0\0\0\0\0\x01\0\0\0\x04\0\0\0\0\0\0\0\x02\0\0\0\x01\0\0\0\x01
# A frame that deletes ann, and its reply as the second one.
DELETED \x03\x06\x09\x0c\xea\x03\0\0\x08\0\0\0\0\0\0\0\x0e\0\0\0{"name":"ann"}
DONE_SECOND \x03\x06\x09\x0c\x02\0\0\0\x01\0\0\0\x15\0\0\0\x02\0\0\0\x01\0\0\0\x04\0\0\0\x08\0\0\0\x02\0\0\0\x01\0\0\0\x01{}
# The reply to ann's frame as the second one, after a refusal, which made nothing.
MADE_SECOND \x03\x06\x09\x0c\x02\0\0\0\x01\0\0\0\x15\0\0\0\x08\0\0\0\x01\0\0\0\x04\0\0\0\x07\0\0\0\x02\0\0\0\x01\0\0\0\x01{"no":1}
# Tails: a cut frame, a wrong marker, bodies of 1,048,577 and of 2^31 bytes, and a headers part of 9 bytes that no row of headers fills.
CUT \x03\x06\x09\x0c\xe8\x03\0\0\x07\0\0\0\0\0\0\0\x0e\0\0
UNMARKED \x03\x06\x09\x0d\xe8\x03\0\0\x07\0\0\0\0\0\0\0\0\0\0\0
LONG \x03\x06\x09\x0c\xe8\x03\0\0\x07\0\0\0\0\0\0\0\x01\0\x10\0
LONGEST \x03\x06\x09\x0c\xe8\x03\0\0\x07\0\0\0\0\0\0\0\0\0\0\x80
HEADERS \x03\x06\x09\x0c\xe8\x03\0\0\x07\0\0\0\x09\0\0\0\0\0\0\0\x05\0\0\0\x02\0\0\0a
# The head of a frame of content type 999 with the longest body, 1,048,576 bytes.
LONGEST_BODY \x03\x06\x09\x0c\xe7\x03\0\0\x05\0\0\0\0\0\0\0\0\0\x10\0
# A head whose headers part has 65,537 bytes: content type 1000, sequence 7, no body.
LONG_HEADERS \x03\x06\x09\x0c\xe8\x03\0\0\x07\0\0\0\x01\0\x01\0\0\0\0\0
# A Hello whose headers part has 65,536 bytes: the head, and the front of one header of the key 9 with 65,528 bytes; and its reply.
LONGEST_HEADER \x03\x06\x09\x0c\0\0\0\0\x07\0\0\0\0\0\x01\0\0\0\0\0\x09\0\0\0\xf8\xff\0\0
GREETED_7 \x03\x06\x09\x0c\x02\0\0\0\0\0\0\0\x15\0\0\0\0\0\0\0\x01\0\0\0\x04\0\0\0\x07\0\0\0\x02\0\0\0\x01\0\0\0\x01
# A whole frame whose headers part of 8 bytes has a header of 2^32 - 1 bytes.
ENDLESS_HEADER \x03\x06\x09\x0c\xe8\x03\0\0\x07\0\0\0\x08\0\0\0\0\0\0\0\x05\0\0\0\xff\xff\xff\xff
# The head of a frame that creates an identity by a body of 400 bytes, and the reply where that is no object.
NESTED \x03\x06\x09\x0c\xe8\x03\0\0\x07\0\0\0\0\0\0\0\x90\x01\0\0
NO_OBJECT \x03\x06\x09\x0c\x02\0\0\0\0\0\0\0\x15\0\0\0\x3c\0\0\0\x01\0\0\0\x04\0\0\0\x07\0\0\0\x02\0\0\0\x01\0\0\0\0{"code":11,"field":"","name":"BadBody","reason":"NotObject"}
# Session 0 is opened by an administrator, session 1 by the identity ann.
OPEN_0 \x01\0\0\0
OPEN_1 \x01\x01\x02\x03ann
# A data record of session 0 with a frame that creates ann: content type 1000, sequence 7, no headers.
ANN_OF_0 \x02\0\x22\0\x03\x06\x09\x0c\xe8\x03\0\0\x07\0\0\0\0\0\0\0\x0e\0\0\0{"name":"ann"}
# The same frame of session 1.
ANN_OF_1 \x02\x01\x22\0\x03\x06\x09\x0c\xe8\x03\0\0\x07\0\0\0\0\0\0\0\x0e\0\0\0{"name":"ann"}
# A data record of session 1 with a frame that creates the service web: content type 1010, sequence 7.
WEB_OF_1 \x02\x01\x22\0\x03\x06\x09\x0c\xf2\x03\0\0\x07\0\0\0\0\0\0\0\x0e\0\0\0{"name":"web"}
# The frame that creates ann, in two data records of session 0: its head, and its body.
HEAD_OF_0 \x02\0\x14\0\x03\x06\x09\x0c\xe8\x03\0\0\x07\0\0\0\0\0\0\0\x0e\0\0\0
BODY_OF_0 \x02\0\x0e\0{"name":"ann"}
# A data record of session 1 with a frame that asks for the services of ann: content type 1501, sequence 9.
LIST_OF_1 \x02\x01\x26\0\x03\x06\x09\x0c\xdd\x05\0\0\x09\0\0\0\0\0\0\0\x12\0\0\0{"identity":"ann"}
# The reply to session 0: the number 1.
MADE_OF_0 \x04\0\x03\x06\x09\x0c\x02\0\0\0\0\0\0\0\x15\0\0\0\x08\0\0\0\x01\0\0\0\x04\0\0\0\x07\0\0\0\x02\0\0\0\x01\0\0\0\x01{"no":1}
# The reply to session 1: ann may create nothing.
REFUSED_OF_1 \x04\x01\x03\x06\x09\x0c\x02\0\0\0\0\0\0\0\x15\0\0\0\x21\0\0\0\x01\0\0\0\x04\0\0\0\x07\0\0\0\x02\0\0\0\x01\0\0\0\0{"code":12,"name":"NotPermitted"}
# The reply to session 1 where ann is not there.
UNKNOWN_OF_1 \x04\x01\x03\x06\x09\x0c\x02\0\0\0\0\0\0\0\x15\0\0\0\x2f\0\0\0\x01\0\0\0\x04\0\0\0\x09\0\0\0\x02\0\0\0\x01\0\0\0\0{"code":21,"field":"identity","name":"Unknown"}
# A data record of session 0 with 20 bytes that begin with another marker.
UNMARKED_OF_0 \x02\0\x14\0\x03\x06\x09\x0d\xe8\x03\0\0\x07\0\0\0\0\0\0\0\0\0\0\0
# A data record of session 1 with a head whose body has 1,048,577 bytes.
LONG_OF_1 \x02\x01\x14\0\x03\x06\x09\x0c\xe8\x03\0\0\x07\0\0\0\0\0\0\0\x01\0\x10\0
# A data record of session 0 with a frame whose headers part of 9 bytes no row of headers fills.
HEADERS_OF_0 \x02\0\x1d\0\x03\x06\x09\x0c\xe8\x03\0\0\x07\0\0\0\x09\0\0\0\0\0\0\0\x05\0\0\0\x02\0\0\0a
# A data record of session 0 with the first 19 bytes of a frame.
CUT_OF_0 \x02\0\x13\0\x03\x06\x09\x0c\xe8\x03\0\0\x07\0\0\0\0\0\0\0\x0e\0\0
# Session 0 is closed, and session 1.
CLOSE_0 \x03\0
CLOSE_1 \x03\x01
# A frame that creates bob, and its reply behind ann's folder: the number 2.
BOB \x03\x06\x09\x0c\xe8\x03\0\0\x07\0\0\0\0\0\0\0\x0e\0\0\0{"name":"bob"}
BOB_MADE \x03\x06\x09\x0c\x02\0\0\0\0\0\0\0\x15\0\0\0\x08\0\0\0\x01\0\0\0\x04\0\0\0\x07\0\0\0\x02\0\0\0\x01\0\0\0\x01{"no":2}
# The reports on absent names: an identity, and a service where ann is there.
NO_ONE {"admissible":[],"bind":0,"common":[],"dial":0,"online":[],"policies":[],"rule":30,"terminators":[],"yes":false}\x0a
NO_SERVICE {"admissible":[],"bind":0,"common":[],"dial":0,"online":[],"policies":[],"rule":31,"terminators":[],"yes":false}\x0a
# A slot in which ann's record stands behind a gate that is still closed, one of no format, one with a length of 2^32 - 1, and bytes that are none.
PENDING_SLOT ZCTL\x02\0\0\0\0\x2b\0\0\0\x01\x02\x01\x01\x04\0\0\0\x02\0\0\0\x01\x05\x03\0\0\0\x01\x05\0\0\0\x03ann\0\x01\x01\x11\x08\0\0\0\x01\0\0\0\0\0\0\0\0
FOREIGN_SLOT ZCTL\x03\0\0\0\0
LONGEST_SLOT ZCTL\x02\0\0\0\x01\xff\xff\xff\xff
ANY \xff\x01\0ZCTL\x02\0\0\0\x01\xff\xff\xff\xff
# The slot that has the rows of ann, bob and web, and the serial 3, in one record.
ALL_SLOT ZCTL\x02\0\0\0\x01\x57\0\0\0\x01\x02\x01\x01\x04\0\0\0\x03\0\0\0\x01\x02\x01\x02\x04\0\0\0\x02\0\0\0\x01\x05\x03\0\0\0\x01\x05\0\0\0\x03ann\0\x01\x05\x03\0\0\0\x02\x05\0\0\0\x03bob\0\x01\x05\x04\0\0\0\x01\x05\0\0\0\x03web\0\x01\x01\x11\x08\0\0\0\x03\0\0\0\0\0\0\0\0
# The records of web and of the policy behind closed gates.
WEB_CLOSED \0\x2b\0\0\0\x01\x02\x01\x02\x04\0\0\0\x02\0\0\0\x01\x05\x04\0\0\0\x01\x05\0\0\0\x03web\0\x01\x01\x11\x08\0\0\0\x02\0\0\0\0\0\0\0
GRANT_CLOSED \0\x41\0\0\0\x01\x02\x01\x05\x04\0\0\0\x02\0\0\0\x01\x05\x07\0\0\0\x01\x0a\0\0\0\x01p\x01\x01\x01\0\0\x01\0\0\x01\x09\x0c\0\0\0\x01\0\0\0\x01\x02\0\0\0\x01\0\x01\x01\x11\x08\0\0\0\x03\0\0\0\0\0\0\0
# The record of the policy with a count of two, and one that deletes a second identity.
GRANT_TWICE \x01\x41\0\0\0\x01\x02\x01\x05\x04\0\0\0\x02\0\0\0\x01\x05\x07\0\0\0\x01\x0a\0\0\0\x01p\x01\x01\x01\0\0\x01\0\0\x01\x09\x0c\0\0\0\x01\0\0\0\x01\x02\0\0\0\x02\0\x01\x01\x11\x08\0\0\0\x03\0\0\0\0\0\0\0
BOB_GOES \x01\x16\0\0\0\x02\x05\x03\0\0\0\x02\x01\x01\x11\x08\0\0\0\x02\0\0\0\0\0\0\0
# Behind ann and bob, the record that deletes ann, with the serial 3, and that of another ann, with the serial 4.
ANN_GOES \x01\x16\0\0\0\x02\x05\x03\0\0\0\x01\x01\x01\x11\x08\0\0\0\x03\0\0\0\0\0\0\0
ANN_FOURTH \x01\x2b\0\0\0\x01\x02\x01\x01\x04\0\0\0\x04\0\0\0\x01\x05\x03\0\0\0\x03\x05\0\0\0\x03ann\0\x01\x01\x11\x08\0\0\0\x04\0\0\0\0\0\0\0
# The record of the router r1, the one behind which it is connected, and that of the next number of identities alone.
ROUTER_KEPT \x01\x2d\0\0\0\x01\x02\x01\x03\x04\0\0\0\x02\0\0\0\x01\x05\x05\0\0\0\x01\x07\0\0\0\x02r1\0\0\0\0\x01\x01\x11\x08\0\0\0\x01\0\0\0\0\0\0\0
CONNECTED_KEPT \x01\x21\0\0\0\x01\x05\x05\0\0\0\x01\x07\0\0\0\x02r1\0\0\0\x02\x01\x01\x11\x08\0\0\0\x02\0\0\0\0\0\0\0
NEXT_KEPT \x01\x1b\0\0\0\x01\x02\x01\x01\x04\0\0\0\x02\0\0\0\x01\x01\x11\x08\0\0\0\x02\0\0\0\0\0\0\0
# The records of bob and of web with the serial 3, as behind two changes.
BOB_THIRD \x01\x2b\0\0\0\x01\x02\x01\x01\x04\0\0\0\x03\0\0\0\x01\x05\x03\0\0\0\x02\x05\0\0\0\x03bob\0\x01\x01\x11\x08\0\0\0\x03\0\0\0\0\0\0\0
WEB_THIRD \x01\x2b\0\0\0\x01\x02\x01\x02\x04\0\0\0\x02\0\0\0\x01\x05\x04\0\0\0\x01\x05\0\0\0\x03web\0\x01\x01\x11\x08\0\0\0\x03\0\0\0\0\0\0\0
# Slots of the first format: of ann, of both identities in two records, without a record, and of both and web in three; those to which they are
# migrated, which have no serial; and the record of the first of them.
OLD_ANN ZCTL\x01\0\0\0\x01\x1c\0\0\0\x01\x02\x01\x01\x04\0\0\0\x02\0\0\0\x01\x05\x03\0\0\0\x01\x05\0\0\0\x03ann\0\0
OLD_BOTH ZCTL\x01\0\0\0\x01\x1c\0\0\0\x01\x02\x01\x01\x04\0\0\0\x02\0\0\0\x01\x05\x03\0\0\0\x01\x05\0\0\0\x03ann\0\x01\x1c\0\0\0\x01\x02\x01\x01\x04\0\0\0\x03\0\0\0\x01\x05\x03\0\0\0\x02\x05\0\0\0\x03bob\0\0
OLD_BARE ZCTL\x01\0\0\0\0
OLD_ALL ZCTL\x01\0\0\0\x01\x1c\0\0\0\x01\x02\x01\x01\x04\0\0\0\x02\0\0\0\x01\x05\x03\0\0\0\x01\x05\0\0\0\x03ann\0\x01\x1c\0\0\0\x01\x02\x01\x01\x04\0\0\0\x03\0\0\0\x01\x05\x03\0\0\0\x02\x05\0\0\0\x03bob\0\x01\x1c\0\0\0\x01\x02\x01\x02\x04\0\0\0\x02\0\0\0\x01\x05\x04\0\0\0\x01\x05\0\0\0\x03web\0\0
NEW_ANN ZCTL\x02\0\0\0\x01\x1c\0\0\0\x01\x02\x01\x01\x04\0\0\0\x02\0\0\0\x01\x05\x03\0\0\0\x01\x05\0\0\0\x03ann\0\0
NEW_KEPT \x01\x1c\0\0\0\x01\x02\x01\x01\x04\0\0\0\x02\0\0\0\x01\x05\x03\0\0\0\x01\x05\0\0\0\x03ann\0
NEW_BOTH ZCTL\x02\0\0\0\x01\x2c\0\0\0\x01\x02\x01\x01\x04\0\0\0\x03\0\0\0\x01\x05\x03\0\0\0\x01\x05\0\0\0\x03ann\0\x01\x05\x03\0\0\0\x02\x05\0\0\0\x03bob\0\0
NEW_ALL ZCTL\x02\0\0\0\x01\x48\0\0\0\x01\x02\x01\x01\x04\0\0\0\x03\0\0\0\x01\x02\x01\x02\x04\0\0\0\x02\0\0\0\x01\x05\x03\0\0\0\x01\x05\0\0\0\x03ann\0\x01\x05\x03\0\0\0\x02\x05\0\0\0\x03bob\0\x01\x05\x04\0\0\0\x01\x05\0\0\0\x03web\0\0
# The record of bob with the serial 1, as behind a migration; and one of him that does not raise the serial.
BOB_FIRST \x01\x2b\0\0\0\x01\x02\x01\x01\x04\0\0\0\x03\0\0\0\x01\x05\x03\0\0\0\x02\x05\0\0\0\x03bob\0\x01\x01\x11\x08\0\0\0\x01\0\0\0\0\0\0\0
BOB_UNCOUNTED \x01\x1c\0\0\0\x01\x02\x01\x01\x04\0\0\0\x03\0\0\0\x01\x05\x03\0\0\0\x02\x05\0\0\0\x03bob\0
# Frames that are shipped: the Whole of ann, the Next of bob as the first and as the second one, and the Whole of both; and the replies to those that were taken.
SHIP_ANN \x03\x06\x09\x0c\x6c\x07\0\0\0\0\0\0\x28\0\0\0\x2b\0\0\0\xe8\x03\0\0\x08\0\0\0\x01\0\0\0\0\0\0\0\xe9\x03\0\0\x04\0\0\0\0\0\0\0\xea\x03\0\0\x04\0\0\0\x01\0\0\0\x01\x02\x01\x01\x04\0\0\0\x02\0\0\0\x01\x05\x03\0\0\0\x01\x05\0\0\0\x03ann\0\x01\x01\x11\x08\0\0\0\x01\0\0\0\0\0\0\0
SHIP_BOB \x03\x06\x09\x0c\x6d\x07\0\0\0\0\0\0\x28\0\0\0\x2b\0\0\0\xe8\x03\0\0\x08\0\0\0\x02\0\0\0\0\0\0\0\xe9\x03\0\0\x04\0\0\0\0\0\0\0\xea\x03\0\0\x04\0\0\0\x01\0\0\0\x01\x02\x01\x01\x04\0\0\0\x03\0\0\0\x01\x05\x03\0\0\0\x02\x05\0\0\0\x03bob\0\x01\x01\x11\x08\0\0\0\x02\0\0\0\0\0\0\0
SHIP_BOB_SECOND \x03\x06\x09\x0c\x6d\x07\0\0\x01\0\0\0\x28\0\0\0\x2b\0\0\0\xe8\x03\0\0\x08\0\0\0\x02\0\0\0\0\0\0\0\xe9\x03\0\0\x04\0\0\0\0\0\0\0\xea\x03\0\0\x04\0\0\0\x01\0\0\0\x01\x02\x01\x01\x04\0\0\0\x03\0\0\0\x01\x05\x03\0\0\0\x02\x05\0\0\0\x03bob\0\x01\x01\x11\x08\0\0\0\x02\0\0\0\0\0\0\0
SHIP_BOTH \x03\x06\x09\x0c\x6c\x07\0\0\0\0\0\0\x28\0\0\0\x3b\0\0\0\xe8\x03\0\0\x08\0\0\0\x02\0\0\0\0\0\0\0\xe9\x03\0\0\x04\0\0\0\0\0\0\0\xea\x03\0\0\x04\0\0\0\x01\0\0\0\x01\x02\x01\x01\x04\0\0\0\x03\0\0\0\x01\x05\x03\0\0\0\x01\x05\0\0\0\x03ann\0\x01\x05\x03\0\0\0\x02\x05\0\0\0\x03bob\0\x01\x01\x11\x08\0\0\0\x02\0\0\0\0\0\0\0
TOOK_1 \x03\x06\x09\x0c\x02\0\0\0\0\0\0\0\x15\0\0\0\x18\0\0\0\x01\0\0\0\x04\0\0\0\0\0\0\0\x02\0\0\0\x01\0\0\0\x01{"own":1,"taken":"Took"}
TOOK_2 \x03\x06\x09\x0c\x02\0\0\0\0\0\0\0\x15\0\0\0\x18\0\0\0\x01\0\0\0\x04\0\0\0\0\0\0\0\x02\0\0\0\x01\0\0\0\x01{"own":2,"taken":"Took"}
TOOK_2_SECOND \x03\x06\x09\x0c\x02\0\0\0\x01\0\0\0\x15\0\0\0\x18\0\0\0\x01\0\0\0\x04\0\0\0\x01\0\0\0\x02\0\0\0\x01\0\0\0\x01{"own":2,"taken":"Took"}
# More of them: the Next of web as the first and as the third one; of ann's folder of the first format, the Whole of the serial 0, whose rows have no serial,
# and behind its migration the Next of bob as the first and as the second one; and the Whole of OLD_GRANTED, in which counts have two bytes.
SHIP_WEB \x03\x06\x09\x0c\x6d\x07\0\0\0\0\0\0\x28\0\0\0\x2b\0\0\0\xe8\x03\0\0\x08\0\0\0\x03\0\0\0\0\0\0\0\xe9\x03\0\0\x04\0\0\0\0\0\0\0\xea\x03\0\0\x04\0\0\0\x01\0\0\0\x01\x02\x01\x02\x04\0\0\0\x02\0\0\0\x01\x05\x04\0\0\0\x01\x05\0\0\0\x03web\0\x01\x01\x11\x08\0\0\0\x03\0\0\0\0\0\0\0
SHIP_WEB_THIRD \x03\x06\x09\x0c\x6d\x07\0\0\x02\0\0\0\x28\0\0\0\x2b\0\0\0\xe8\x03\0\0\x08\0\0\0\x03\0\0\0\0\0\0\0\xe9\x03\0\0\x04\0\0\0\0\0\0\0\xea\x03\0\0\x04\0\0\0\x01\0\0\0\x01\x02\x01\x02\x04\0\0\0\x02\0\0\0\x01\x05\x04\0\0\0\x01\x05\0\0\0\x03web\0\x01\x01\x11\x08\0\0\0\x03\0\0\0\0\0\0\0
SHIP_OLD_ANN \x03\x06\x09\x0c\x6c\x07\0\0\0\0\0\0\x28\0\0\0\x1c\0\0\0\xe8\x03\0\0\x08\0\0\0\0\0\0\0\0\0\0\0\xe9\x03\0\0\x04\0\0\0\0\0\0\0\xea\x03\0\0\x04\0\0\0\x01\0\0\0\x01\x02\x01\x01\x04\0\0\0\x02\0\0\0\x01\x05\x03\0\0\0\x01\x05\0\0\0\x03ann\0
SHIP_NEW_BOB \x03\x06\x09\x0c\x6d\x07\0\0\0\0\0\0\x28\0\0\0\x2b\0\0\0\xe8\x03\0\0\x08\0\0\0\x01\0\0\0\0\0\0\0\xe9\x03\0\0\x04\0\0\0\0\0\0\0\xea\x03\0\0\x04\0\0\0\x01\0\0\0\x01\x02\x01\x01\x04\0\0\0\x03\0\0\0\x01\x05\x03\0\0\0\x02\x05\0\0\0\x03bob\0\x01\x01\x11\x08\0\0\0\x01\0\0\0\0\0\0\0
SHIP_NEW_BOB_SECOND \x03\x06\x09\x0c\x6d\x07\0\0\x01\0\0\0\x28\0\0\0\x2b\0\0\0\xe8\x03\0\0\x08\0\0\0\x01\0\0\0\0\0\0\0\xe9\x03\0\0\x04\0\0\0\0\0\0\0\xea\x03\0\0\x04\0\0\0\x01\0\0\0\x01\x02\x01\x01\x04\0\0\0\x03\0\0\0\x01\x05\x03\0\0\0\x02\x05\0\0\0\x03bob\0\x01\x01\x11\x08\0\0\0\x01\0\0\0\0\0\0\0
SHIP_OLD_GRANTED \x03\x06\x09\x0c\x6c\x07\0\0\0\0\0\0\x28\0\0\0\x6a\0\0\0\xe8\x03\0\0\x08\0\0\0\0\0\0\0\0\0\0\0\xe9\x03\0\0\x04\0\0\0\0\0\0\0\xea\x03\0\0\x04\0\0\0\x01\0\0\0\x01\x02\x01\x01\x04\0\0\0\x02\0\0\0\x01\x02\x01\x02\x04\0\0\0\x02\0\0\0\x01\x02\x01\x05\x04\0\0\0\x02\0\0\0\x01\x05\x03\0\0\0\x01\x05\0\0\0\x03ann\0\x01\x05\x04\0\0\0\x01\x05\0\0\0\x03web\0\x01\x05\x07\0\0\0\x01\x0a\0\0\0\x01p\x01\x01\x01\0\0\x01\0\0\x01\x09\x0c\0\0\0\x01\0\0\0\x01\x02\0\0\0\x01\0
# A folder's slot of the first format that keeps ann, web and the policy by which all may dial all, in three records.
OLD_GRANTED ZCTL\x01\0\0\0\x01\x1c\0\0\0\x01\x02\x01\x01\x04\0\0\0\x02\0\0\0\x01\x05\x03\0\0\0\x01\x05\0\0\0\x03ann\0\x01\x1c\0\0\0\x01\x02\x01\x02\x04\0\0\0\x02\0\0\0\x01\x05\x04\0\0\0\x01\x05\0\0\0\x03web\0\x01\x34\0\0\0\x01\x02\x01\x05\x04\0\0\0\x02\0\0\0\x01\x05\x07\0\0\0\x01\x0a\0\0\0\x01p\x01\x01\x01\0\0\x01\0\0\x01\x09\x0c\0\0\0\x01\0\0\0\x01\x04\0\0\0\x01\0\0\0\0
# Batches: of ann and of bob with the serials 1 and 2, and of bob with the serial 3; ann's with another name, with an attribute, and without a serial, as behind
# a migration; one that deletes what is not there; bob without the next number; one that puts ann as she is; and both in one with the serials 2 and 9.
BATCH_ANN \x01\x02\x01\x01\x04\0\0\0\x02\0\0\0\x01\x05\x03\0\0\0\x01\x05\0\0\0\x03ann\0\x01\x01\x11\x08\0\0\0\x01\0\0\0\0\0\0\0
BATCH_BOB \x01\x02\x01\x01\x04\0\0\0\x03\0\0\0\x01\x05\x03\0\0\0\x02\x05\0\0\0\x03bob\0\x01\x01\x11\x08\0\0\0\x02\0\0\0\0\0\0\0
BATCH_BOB_THIRD \x01\x02\x01\x01\x04\0\0\0\x03\0\0\0\x01\x05\x03\0\0\0\x02\x05\0\0\0\x03bob\0\x01\x01\x11\x08\0\0\0\x03\0\0\0\0\0\0\0
BATCH_ANM \x01\x02\x01\x01\x04\0\0\0\x02\0\0\0\x01\x05\x03\0\0\0\x01\x05\0\0\0\x03anm\0\x01\x01\x11\x08\0\0\0\x01\0\0\0\0\0\0\0
BATCH_TAGGED \x01\x02\x01\x01\x04\0\0\0\x02\0\0\0\x01\x05\x03\0\0\0\x01\x07\0\0\0\x03ann\x01\x01a\x01\x01\x11\x08\0\0\0\x01\0\0\0\0\0\0\0
BATCH_UNCOUNTED \x01\x02\x01\x01\x04\0\0\0\x02\0\0\0\x01\x05\x03\0\0\0\x01\x05\0\0\0\x03ann\0
BATCH_GOES \x02\x05\x03\0\0\0\x09\x01\x01\x11\x08\0\0\0\x01\0\0\0\0\0\0\0
BATCH_UNNUMBERED \x01\x05\x03\0\0\0\x02\x05\0\0\0\x03bob\0\x01\x01\x11\x08\0\0\0\x02\0\0\0\0\0\0\0
BATCH_EQUAL \x01\x05\x03\0\0\0\x01\x05\0\0\0\x03ann\0\x01\x01\x11\x08\0\0\0\x02\0\0\0\0\0\0\0
BATCH_BOTH \x01\x02\x01\x01\x04\0\0\0\x03\0\0\0\x01\x05\x03\0\0\0\x01\x05\0\0\0\x03ann\0\x01\x05\x03\0\0\0\x02\x05\0\0\0\x03bob\0\x01\x01\x11\x08\0\0\0\x02\0\0\0\0\0\0\0
BATCH_BOTH_NINTH \x01\x02\x01\x01\x04\0\0\0\x03\0\0\0\x01\x05\x03\0\0\0\x01\x05\0\0\0\x03ann\0\x01\x05\x03\0\0\0\x02\x05\0\0\0\x03bob\0\x01\x01\x11\x08\0\0\0\x09\0\0\0\0\0\0\0
# The headers of a Next of the serial 2 whose count stands twice, 7 and then 1; those of it without a count; and those of it with a serial of four bytes.
COUNT_TWICE \xe8\x03\0\0\x08\0\0\0\x02\0\0\0\0\0\0\0\xe9\x03\0\0\x04\0\0\0\0\0\0\0\xea\x03\0\0\x04\0\0\0\x07\0\0\0\xea\x03\0\0\x04\0\0\0\x01\0\0\0
NO_COUNT \xe8\x03\0\0\x08\0\0\0\x02\0\0\0\0\0\0\0\xe9\x03\0\0\x04\0\0\0\0\0\0\0
SHORT_SERIAL \xe8\x03\0\0\x04\0\0\0\x02\0\0\0\xe9\x03\0\0\x04\0\0\0\0\0\0\0\xea\x03\0\0\x04\0\0\0\x01\0\0\0
"##;

// The bytes of a part that has a name elsewhere.
fn known_part(name: &str) -> Option<&'static [u8]> {
    for (known, part) in KNOWN {
        if *known == name {
            return Some(part);
        }
    }
    None
}

// How the part of a name is spelled. What is no name stands for itself.
fn part_of(name: &str) -> &str {
    for line in PARTS.lines() {
        if let Some((known, part)) = line.split_once(' ') {
            if known == name {
                return part;
            }
        }
    }
    name
}

// The value of a digit of a byte, of which the letters are small.
fn digit(letter: u8) -> u8 {
    if letter < b'a' {
        letter.wrapping_sub(b'0')
    } else {
        letter.wrapping_sub(b'a').wrapping_add(10)
    }
}

// Puts what stands behind a `\`: the byte 0 or a byte by its digits, and some letters.
fn push_escaped(bytes: &mut Vec<u8>, text: &[u8]) -> Result<(), AllocError> {
    match text {
        [b'0', rest @ ..] => {
            bytes.push(0)?;
            bytes.extend_from_slice(rest)
        }
        [b'x', high, low, rest @ ..] => {
            bytes.push(digit(*high).wrapping_mul(16).wrapping_add(digit(*low)))?;
            bytes.extend_from_slice(rest)
        }
        _ => bytes.extend_from_slice(text),
    }
}

// Puts a part behind the bytes, as it is spelled.
fn push_spelled(bytes: &mut Vec<u8>, part: &str) -> Result<(), AllocError> {
    let mut is_escaped = false;
    for text in part.split('\\') {
        if is_escaped {
            push_escaped(bytes, text.as_bytes())?;
        } else {
            bytes.extend_from_slice(text.as_bytes())?;
        }
        is_escaped = true;
    }
    Ok(())
}

// Puts what is spelled so many times behind the bytes.
fn push_many(bytes: &mut Vec<u8>, spelled: &str, count: &str) -> Result<(), AllocError> {
    for _ in 0usize..count.parse::<usize>().unwrap_or(0) {
        push_spelled(bytes, spelled)?;
    }
    Ok(())
}

// Puts a piece behind the bytes: what is spelled so many times, as `a*20`, one that has a name, or one as it is spelled.
fn push_piece(bytes: &mut Vec<u8>, piece: &str) -> Result<(), AllocError> {
    if let Some((spelled, count)) = piece.split_once('*') {
        return push_many(bytes, spelled, count);
    }
    match known_part(piece) {
        Some(known) => bytes.extend_from_slice(known),
        None => push_spelled(bytes, part_of(piece)),
    }
}

// Puts a part behind the bytes: its pieces, between which there is a `+`, or nothing for `-`.
fn push_part(bytes: &mut Vec<u8>, part: &str) -> Result<(), AllocError> {
    if part != "-" {
        for piece in part.split('+') {
            push_piece(bytes, piece)?;
        }
    }
    Ok(())
}

/// The bytes of some parts, between which there are spaces.
pub fn bytes_of(alloc: Global, parts: &str) -> Result<Vec<u8>, AllocError> {
    let mut bytes = Vec::new(alloc);
    for part in parts.split_whitespace() {
        push_part(&mut bytes, part)?;
    }
    Ok(bytes)
}

// Puts the parts of a folder behind the bytes of some.
fn push_parts(images: &mut Images, parts: &str) -> Result<(), AllocError> {
    let (zero, rest) = parts.split_once(' ').unwrap_or((parts, "-"));
    let (one, mark) = rest.split_once(' ').unwrap_or((rest, "-"));
    push_part(&mut images.zero, zero)?;
    push_part(&mut images.one, one)?;
    push_part(&mut images.mark, mark)
}

/// A folder by its parts, the first slot, the second one and the mark, between which there is a space.
pub fn folder_of(alloc: Global, parts: &str) -> Result<Images, AllocError> {
    let mut images = Images::empty(alloc);
    push_parts(&mut images, parts)?;
    Ok(images)
}

// Puts a line of a note behind the others.
fn push_note(bytes: &mut Vec<u8>, note: &str) -> Result<(), AllocError> {
    bytes.extend_from_slice(b"zitictl: ")?;
    bytes.extend_from_slice(note.as_bytes())?;
    bytes.extend_from_slice(b"\n")
}

/// The lines of notes, each of which begins with the program's name. `; ` stands between them, and `-` for none.
pub fn notes_of(alloc: Global, notes: &str) -> Result<Vec<u8>, AllocError> {
    let mut bytes = Vec::new(alloc);
    if notes != "-" {
        for note in notes.split("; ") {
            push_note(&mut bytes, note)?;
        }
    }
    Ok(bytes)
}
