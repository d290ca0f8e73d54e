//! Change files, named for what they hold.

/// Items of all five kinds, The Old Mill on street 300, which is Mill Lane.
pub(crate) const OLD_MILL: &[u8] = b"10,1,1003,1,2024-01-02\n\
    11,I,1,300,2,2010-05-01,\n\
    15,I,2,300,ENG,\"Mill Lane, rear of\",,Bay,Bay Area\n\
    21,I,3,200000,6,0,0,,,2010-05-01,\n\
    24,I,4,Q1,200000,ENG,6,300,,,,,,,,,,The Old Mill,2010-05-01,\n\
    23,I,5,X1,200000,TAX01,A/17,2010-05-01,\n\
    99,5\n";

/// Resting on two others: property 100002, 9 Mill Lane, with a flat and tax numbers of both.
pub(crate) const NUMBER_9_MILL_LANE: &[u8] = b"10,1,1002,1,2024-03-01\n\
    90,1001,1\n\
    90,1003,1\n\
    21,I,1,100002,1,455000,255000,,BY1 1AB,2020-01-01,\n\
    24,I,2,K2,100002,ENG,1,300,,,,,,9,,,,,2020-01-01,\n\
    21,I,3,100003,1,455000,255000,100002,BY1 1AB,2020-01-01,\n\
    24,I,4,K3,100003,ENG,1,300,1,,,,Flat,9,,,,,2020-01-01,\n\
    23,I,5,Y1,100002,TAX01,B/1,2020-01-01,\n\
    23,I,6,Y2,100003,TAX01,B/2,2020-01-01,\n\
    99,6\n";

/// An update of each kind, with an end where there may be one.
pub(crate) const ALL_CHANGED: &[u8] = b"10,1,1001,4,2024-07-01\n\
    11,U,1,101,1,2001-04-01,2024-04-30\n\
    15,U,2,101,CYM,Stryd Fawr,Upper Arden,Arden,Arden\n\
    21,U,3,42,8,450000,250000,,AR1 2DN,2001-04-01,2024-06-01\n\
    24,U,4,L1,42,CYM,8,101,,,,,Flat 2,12,A,14,,,2001-04-01,2024-04-01\n\
    23,U,5,X1,42,TAX01,A/17,2010-05-01,2024-04-01\n\
    99,5\n";

/// A deletion of each kind.
pub(crate) const ALL_DELETED: &[u8] = b"10,1,1001,5,2024-07-01\n\
    11,D,1,101,1,2001-04-01,\n\
    15,D,2,101,ENG,High Street,,Arden,Arden\n\
    21,D,3,42,1,450000,250000,,AR1 2DN,2001-04-01,\n\
    24,D,4,L1,42,ENG,3,101,,,,,Flat 2,12,A,14,,,2001-04-01,\n\
    23,D,5,X1,42,TAX01,A/17,2010-05-01,\n\
    99,5\n";

/// Property 500 passes from custodian 1001 to 1002.
pub(crate) const PROPERTY_500_RELEASED: &[u8] =
    b"10,2,1001,1,2025-01-02\n91,I,1,500,1002,1\n99,1\n";

/// It is taken.
pub(crate) const PROPERTY_500_ADOPTED: &[u8] =
    b"10,2,1002,1,2025-01-03\n90,1001,1\n92,I,1,500,1001,1,1,450000,250000,,,2020-01-01,\n99,1\n";

/// Neither bases nor changes.
pub(crate) const NOTHING: &[u8] = b"10,1,1001,1,2024-01-02\n99,0\n";

/// A basis and no changes.
pub(crate) const RESTS_ALONE: &[u8] = b"10,1,1002,1,2024-06-01\n90,1003,1\n99,0\n";

/// A basis and no changes, of the custodian on whom that one rests.
pub(crate) const RESTS_ON_1002: &[u8] = b"10,1,1003,1,2024-06-01\n90,1002,1\n99,0\n";

/// Properties with the least and the greatest coordinates, with zeros, quotes, an empty line and
/// line ends that needn't be there.
pub(crate) const WRITTEN_LOOSELY: &[u8] = b"10,0001,1001,000001,2024-01-02\r\n\r\n\
    21,I,0001,000000000042,1,0,0,,,2020-01-01,\r\n\
    \"21\",I,2,999999999999,1,700000,1300000,,,2020-01-01,\r\n99,0002";

/// The same, as it is written.
pub(crate) const WRITTEN_STRICTLY: &[u8] = b"10,1,1001,1,2024-01-02\n\
    21,I,1,42,1,0,0,,,2020-01-01,\n\
    21,I,2,999999999999,1,700000,1300000,,,2020-01-01,\n\
    99,2\n";
