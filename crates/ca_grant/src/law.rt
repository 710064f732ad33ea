//! A law of the key check, over every list of grants.
ghost use Rattle.std.specs.Prelude.{◌≡◌, ℕ, List};
ghost use Rattle.ca_keys.specs.Allowed.{denial_of};
ghost use Rattle.ca_keys.specs.Memory.{runs_for};
ghost use Rattle.ca_keys.specs.declared.access.Ask.{Ask};
ghost use Rattle.ca_keys.specs.declared.grant.Grant.{Grant};
ghost use Rattle.ca_grant.specs.KeySlot.{HaveSlotsApart, grant_in_slot, list_of_grant};

/// Where each key slot has one grant in force at most, an ask is judged by the grant of its key's slot alone, and it
/// touches the places of that grant.
pub fn judged_by_slot()
    ensures denial { (ask : Ask) (grants : List Grant) → HaveSlotsApart grants →
        denial_of ask grants ≡ denial_of ask (list_of_grant (grant_in_slot ask grants)) }
    ensures places { (ask : Ask) (grants : List Grant) (count : ℕ) → HaveSlotsApart grants →
        runs_for ask grants count ≡ runs_for ask (list_of_grant (grant_in_slot ask grants)) count }
{}
