ghost use Rattle.std.specs.Prelude.{◌≡◌, ℕ, ◌<◌, ◌≤◌, ◌^◌};
ghost use Rattle.ca_psn.specs.declared.class.Class.{Class};
ghost use Rattle.ca_psn.specs.Psn.{IsClass, class_of, IsWidened, widened};

use crate::class::Class;
use ca_base::limits::PSN_COUNT;

/// How many PSNs before the expected one are duplicates: half of them all, 2^23.
const DUPLICATES: u32 = 0x80_0000;

/// Where a packet's PSN lies, seen from the expected one. Both are PSNs, below 2^24.
pub fn classify(expected: u32, got: u32) -> Class
    requires expected { expected < 2 ^ 24 }
    requires got { got < 2 ^ 24 }
    ensures value { result ≡ class_of expected got }
    ensures meaning { IsClass expected got result }
    ensures only { (c : Class) → IsClass expected got c → c ≡ result }
{
    let back = (expected + PSN_COUNT - got) % PSN_COUNT;
    if back == 0 {
        Class::Expected
    } else if back <= DUPLICATES {
        Class::Duplicate(back)
    } else {
        Class::Ahead
    }
}

/// The one whole number w that equals `got` modulo 2^24 with `near - 2^23 <= w < near + 2^23`, where `near` is between
/// 2^23 and 2^63.
pub fn widen(near: u64, got: u32) -> u64
    requires low { 2 ^ 23 ≤ near }
    requires high { near ≤ 2 ^ 63 }
    ensures value { result ≡ widened near got }
    ensures meaning { IsWidened near got result }
    ensures only { (w : ℕ) → IsWidened near got w → w ≡ result }
{
    let first = near - u64::from(DUPLICATES);
    let count = u64::from(PSN_COUNT);
    first + (u64::from(got) + count - first % count) % count
}
