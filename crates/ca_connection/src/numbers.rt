ghost use Rattle.std.specs.Prelude.{◌≡◌, ℕ, suc, ◌+◌, ◌%◌, ◌^◌, ◌<◌, ◌≤◌, true};
ghost use Rattle.ca_base.specs.declared.limits.TheConstants.{MIN_PATH_MTU, MAX_MESSAGE_BYTES, MAX_MESSAGE_PACKETS};
ghost use Rattle.ca_psn.specs.Psn.{widened};
ghost use Rattle.ca_connection.specs.Acknowledge.{Acknowledges, first_unanswered};
ghost use Rattle.ca_connection.specs.Layout.{Direction, HasNumber, first, is_read, segments, span, start};

/// A PSN stands for the number that was sent, where that lies at most half of all PSNs below the number beside which the
/// PSN is read, or less than half above it.
pub fn number_of_psn()
    ensures { (near n : ℕ) → 2 ^ 23 ≤ near → near ≤ n + 2 ^ 23 → n < near + 2 ^ 23 → widened near (n % 2 ^ 24) ≡ n }
{}

/// No two requests have one number.
pub fn number_has_one_request()
    ensures { (d : Direction) (p q n : ℕ) → HasNumber d p n → HasNumber d q n → p ≡ q }
{}

/// Each number from the first one on, below the first one of the request at place k, belongs to a request before that.
pub fn number_has_a_request()
    ensures { (d : Direction) (k n : ℕ) → start d ≤ n → n < first d k → (p : ℕ) × (p < k) × HasNumber d p n }
{}

/// The numbers of a packet are its request's.
pub fn packet_ends_within_its_request()
    ensures { (d : Direction) (p n : ℕ) → 0 < d.mtu → HasNumber d p n → n + span d p n ≤ first d (suc p) }
{}

/// The request packet of a READ, also one that is sent again from the middle, takes all numbers of the READ from there on.
pub fn read_asks_for_the_rest()
    ensures { (d : Direction) (p n : ℕ) → 0 < d.mtu → is_read (d.work p) ≡ true → HasNumber d p n
        → n + span d p n ≡ first d (suc p) }
{}

/// No message has more packets than the limit says.
pub fn longest_message()
    ensures { (mtu bytes : ℕ) → MIN_PATH_MTU ≤ mtu → bytes ≤ MAX_MESSAGE_BYTES
        → segments mtu bytes ≤ MAX_MESSAGE_PACKETS }
{}

/// The walk over the requests that are not finished, from the oldest on, so many of them that they have all numbers up to
/// `upto`, finds the first number of a READ or an atomic from `una` on, and finds nothing only where there is none.
pub fn acknowledgement_stops_at_first_unanswered()
    ensures { (d : Direction) (count place una upto : ℕ) → first d place ≤ una → upto < first d (place + count)
        → Acknowledges d una upto (first_unanswered d count place (first d place) una upto) }
{}
