// SPDX-License-Identifier: MIT OR Apache-2.0
//! Steps of memory transactions for several rows: descriptors that are stored word by word, and the calls.

// All endpoints map their buffers, and the first partition runs.
pub(super) const MAPPED: &str = "\
call 84000066 4001E000 4001F000 1 -> 0: 84000061
call 8400006D 80020000 -> 8002: 8400006D 80020000
call 84000066 4003E000 4003F000 1 -> 8002: 84000061
call 8400006B -> 0: 8400006B 80020000
call 8400006D 80010000 -> 8001: 8400006D 80010000
call 84000066 4002E000 4002F000 1 -> 8001: 84000061
";

// One partition waits, and the normal world runs the other.
pub(super) const TO_SECOND: &str = "\
call 8400006B -> 0: 8400006B 80010000
call 8400006D 80020000 -> 8002: 8400006D 80020000
";

pub(super) const TO_FIRST: &str = "\
call 8400006B -> 0: 8400006B 80020000
call 8400006D 80010000 -> 8001: 8400006D 80010000
";

// The first partition lends the page at 40021000 to the second, for reading and writing.
pub(super) const LEND: &str = "\
store 4002E000 0000000000008001 -> done
store 4002E018 0000000100000010 -> done
store 4002E020 0000000000000030 -> done
store 4002E030 0000004000028002 -> done
store 4002E040 0000000100000001 -> done
store 4002E050 0000000040021000 -> done
store 4002E058 0000000000000001 -> done
call 84000072 60 60 -> 8001: 84000061 0 1 8001
load 40021000 1 -> fault translation
";

// The second partition retrieves the first transaction of the first partition.
pub(super) const RETRIEVE: &str = "\
store 4003E000 0000000000008001 -> done
store 4003E008 0000800100000001 -> done
store 4003E018 0000000100000010 -> done
store 4003E020 0000000000000030 -> done
store 4003E030 0000000000028002 -> done
";

pub(super) const RETRIEVED: &str = "call 84000074 40 40 -> 8002: 84000075 60 60\n";

// The second partition stores into the page, and relinquishes it.
pub(super) const RELINQUISH: &str = "\
store 40021000 5A -> done
store 4003E000 0000800100000001 -> done
store 4003E008 0000000100000000 -> done
store 4003E010 8002 -> done
call 84000076 -> 8002: 84000061
load 40021000 1 -> fault translation
";

// The second partition donates the page at 40031000 to the first.
pub(super) const DONATE: &str = "\
store 4003E000 0000000000008002 -> done
store 4003E018 0000000100000010 -> done
store 4003E020 0000000000000030 -> done
store 4003E030 0000004000008001 -> done
store 4003E040 0000000100000001 -> done
store 4003E050 0000000040031000 -> done
store 4003E058 0000000000000001 -> done
call 84000071 60 60 -> 8002: 84000061 0 1 8002
";

// The first partition retrieves the page without execution, which the page never had.
pub(super) const TAKE: &str = "\
store 4002E000 0000000000008002 -> done
store 4002E008 0000800200000001 -> done
store 4002E018 0000000100000010 -> done
store 4002E020 0000000000000030 -> done
store 4002E030 0000000000088001 -> done
call 84000074 40 40 -> 8001: 84000060 0 FFFFFFFA
store 4002E030 0000000000008001 -> done
";

pub(super) const TAKEN: &str = "\
call 84000074 40 40 -> 8001: 84000075 60 60
load 4002F000 8 -> data 00000018002F8002
load 4002F030 8 -> data 0000004000068001
";
