ghost use Rattle.std.specs.Prelude.{◌≡◌, false};
ghost use Rattle.std.specs.Option.{option_map_or};
ghost use Rattle.ca_base.specs.ca_keys.Equal.{queue_eq};

use crate::binding::Binding;
use crate::refusals::{binding_refusal, region_slot};
use crate::rights::remote_of;
use crate::view::WindowView;
use ca_base::{Key, QueueId, RegionView, Rights, Slot, WindowError};
use std::marker::Model;

/// The slot of a memory window. Its low byte and the byte that was drawn last open at 0 and stay while the slot is
/// vacant (this profile's choice).
#[derive(Drop)]
pub struct Window {
    slot: Slot,
    kind: Kind,
    low: u8,
    drawn: u8,
    binding: Option<Binding>,
}

#[derive(Clone, Copy, PartialEq, Eq)]
enum Kind {
    Vacant,
    Type1,
    Type2,
}

impl Model for Window {
    ghost use Rattle.ca_base.specs.objects.Window.{Window};

    ghost Value = { Window };

    ghost use Rattle.ca_window.specs.View.{view_of, IsWindow};

    ghost view = { view_of };

    ghost invariant = { IsWindow };
}

impl Window {
    ghost use Rattle.std.specs.Prelude.{◌<◌, ◌≤◌, Some, None, true, OnOk, OnErr, IfErr, IfSome};
    ghost use Rattle.std.specs.Option.{option_copied, option_map};
    ghost use Rattle.ca_base.specs.Grants.{grant_of_bind};
    ghost use Rattle.ca_base.specs.ca_keys.Refusals.{first_of};
    ghost use Rattle.ca_base.specs.ca_keys.declared.grant.Grant.{Grant};
    ghost use Rattle.ca_base.specs.objects.Slices.{is_key_of};
    ghost use Rattle.ca_base.specs.objects.Window as windows;
    ghost use Rattle.ca_window.specs.Bind.{region_of_view};
    ghost use Rattle.ca_window.specs.Seen.{view_of_window, grant_of_window};

    /// The vacant window of a slot, from which its keys have their index.
    pub fn vacant(slot: Slot) -> Window
        requires { slot.slot < 32768 }
        ensures { result ≡ windows.vacant_window slot }
    {
        Window {
            slot,
            kind: Kind::Vacant,
            low: 0,
            drawn: 0,
            binding: None,
        }
    }

    /// The slot, from which the window's keys have their index.
    pub fn slot(&self) -> Slot
        ensures slot { result ≡ self.now.slot }
        ensures small { result.slot < 32768 }
    {
        self.slot
    }

    /// 0 where the slot is vacant, and else the window's type, 1 or 2.
    pub fn kind(&self) -> u8
        ensures kind { result ≡ self.now.kind }
        ensures known { result ≤ 2 }
    {
        match self.kind {
            Kind::Vacant => 0,
            Kind::Type1 => 1,
            Kind::Type2 => 2,
        }
    }

    /// What is bound, under a key of the window's domain. None comes exactly where nothing is.
    pub fn view(&self) -> Option<WindowView>
        ensures view { result ≡ view_of_window self.now }
        ensures domain { IfSome result (λ v. is_key_of self.now.slot.domain v.key ≡ true) }
    {
        match self.binding {
            None => None,
            Some(b) => Some(WindowView {
                key: Key::of_window(self.slot, self.low),
                queue: b.queue,
                address: b.address,
                length: b.length,
                rights: b.rights,
            }),
        }
    }

    /// The slot of the region in which the window is bound. None comes exactly where it is not bound.
    pub fn region(&self) -> Option<u16>
        ensures { result ≡ option_map (λ b. b.region) self.now.binding }
    {
        match self.binding {
            None => None,
            Some(b) => Some(b.region),
        }
    }

    /// Allocates a window of type 1 or 2 in this vacant slot.
    pub fn allocate(&mut self, kind: u8)
        requires vacant { self.old.kind ≡ 0 }
        requires low { 1 ≤ kind }
        requires high { kind ≤ 2 }
        ensures { self.new ≡ windows.after_window_allocation kind self.old }
    {
        self.kind = if kind == 1 { Kind::Type1 } else { Kind::Type2 };
    }

    /// Draws the low byte of the next bind of a type 1 window: the one after that which was drawn last. A window that is
    /// not of type 1 draws none and stays as it was.
    pub fn draw(&mut self) -> Option<u8>
        ensures drawn { result ≡ windows.byte_drawn self.old }
        ensures after { self.new ≡ windows.after_draw self.old }
    {
        if self.kind != Kind::Type1 {
            return None;
        }
        self.drawn = if self.drawn == 255 { 0 } else { self.drawn + 1 };
        Some(self.drawn)
    }

    /// Binds a type 1 window under the byte that was drawn for it, to `length` bytes from `address` on of the region
    /// that is seen. A length of 0 leaves it unbound; an earlier binding ends in either case. The refusals in order are
    /// `NoWindow` and `WrongType`, and for a length above 0 `RegionNotValid`, `NoBindRight`, `RightsNeedLocalWrite` and
    /// `OutsideRegion`.
    pub fn bind1(
        &mut self,
        drawn: u8,
        r: Option<&RegionView>,
        address: u64,
        length: u32,
        rights: Rights,
    ) -> Result<(), WindowError>
        ensures accepted { OnOk result
            (first_of (windows.bind1_refusals (option_copied r.entry) address length rights self.old) ≡ None) }
        ensures refused { IfErr result
            (λ e. first_of (windows.bind1_refusals (option_copied r.entry) address length rights self.old) ≡ Some e) }
        ensures granted { OnOk result (0 < length → (g : Grant)
            → grant_of_window self.new g ≡ Some (grant_of_bind self.old.slot drawn None g address length rights)) }
        ensures bound { OnOk result (self.new
            ≡ windows.after_bind1 drawn
            (region_of_view self.old.slot.domain (option_copied r.entry)) address length rights self.old) }
        ensures err { OnErr result (self.new ≡ self.old) }
    {
        if let Some(refusal) = self.bind1_refusal(r, address, length, rights) {
            return Err(refusal);
        }
        if length == 0 {
            self.binding = None;
        } else {
            self.bind(drawn, None, region_slot(r), address, length, rights);
        }
        Ok(())
    }

    /// Binds a type 2 window for a queue pair, under a low byte that the request names, to `length` bytes from
    /// `address` on of the region that is seen. The refusals in order are `NoWindow`, `WrongType`, `StillBound`,
    /// `Empty`, `RegionNotValid`, `NoBindRight`, `RightsNeedLocalWrite` and `OutsideRegion`.
    pub fn bind2(
        &mut self,
        low: u8,
        queue: QueueId,
        r: Option<&RegionView>,
        address: u64,
        length: u32,
        rights: Rights,
    ) -> Result<(), WindowError>
        ensures accepted { OnOk result
            (first_of (windows.bind2_refusals (option_copied r.entry) address length rights self.old) ≡ None) }
        ensures refused { IfErr result
            (λ e. first_of (windows.bind2_refusals (option_copied r.entry) address length rights self.old) ≡ Some e) }
        ensures granted { OnOk result ((g : Grant)
            → grant_of_window self.new g
            ≡ Some (grant_of_bind self.old.slot low (Some queue) g address length rights)) }
        ensures bound { OnOk result (self.new
            ≡ windows.after_binding low (Some queue)
            (region_of_view self.old.slot.domain (option_copied r.entry)) address length rights self.old) }
        ensures err { OnErr result (self.new ≡ self.old) }
    {
        if let Some(refusal) = self.bind2_refusal(r, address, length, rights) {
            return Err(refusal);
        }
        self.bind(low, Some(queue), region_slot(r), address, length, rights);
        Ok(())
    }

    /// Ends the binding of a type 2 window by its key, asked by the queue pair through which it was bound. The refusals
    /// in order are `NoWindow`, `Type1`, `NotBound`, `KeyDiffers` and `WrongQueue`.
    pub fn invalidate(&mut self, key: Key, queue: QueueId) -> Result<(), WindowError>
        ensures accepted { OnOk result (first_of (windows.window_invalidation_refusals key queue self.old) ≡ None) }
        ensures refused { IfErr result (λ e. first_of (windows.window_invalidation_refusals key queue self.old)
            ≡ Some e) }
        ensures unbound { OnOk result (self.new ≡ windows.without_binding self.old) }
        ensures err { OnErr result (self.new ≡ self.old) }
    {
        if let Some(refusal) = self.invalidation_refusal(key, queue) {
            return Err(refusal);
        }
        self.binding = None;
        Ok(())
    }

    /// Makes the slot vacant, and gives the key that was in force.
    pub fn deallocate(&mut self) -> Option<Key>
        ensures key { result ≡ windows.bound_key self.old }
        ensures after { self.new ≡ windows.after_deallocation self.old }
    {
        let key = match self.binding {
            None => None,
            Some(_) => Some(self.key()),
        };
        self.kind = Kind::Vacant;
        self.binding = None;
        key
    }

    fn key(&self) -> Key
        ensures { result ≡ windows.key_of_window self.now }
    {
        Key::of_window(self.slot, self.low)
    }

    fn bind(
        &mut self,
        low: u8,
        queue: Option<QueueId>,
        region: u16,
        address: u64,
        length: u32,
        rights: Rights,
    )
        ensures { self.new ≡ windows.after_binding low queue region address length rights self.old }
    {
        self.low = low;
        self.binding = Some(Binding {
            region,
            queue,
            address,
            length,
            rights: remote_of(rights),
        });
    }

    /// Why a bind of a type 1 window would be refused. None comes exactly where it would not.
    pub fn bind1_refusal(
        &self,
        r: Option<&RegionView>,
        address: u64,
        length: u32,
        rights: Rights,
    ) -> Option<WindowError>
        ensures { result ≡ first_of (windows.bind1_refusals (option_copied r.entry) address length rights self.now) }
    {
        match self.kind {
            Kind::Vacant => Some(WindowError::NoWindow),
            Kind::Type2 => Some(WindowError::WrongType),
            Kind::Type1 if length == 0 => None,
            Kind::Type1 => binding_refusal(r, address, length, rights),
        }
    }

    /// Why a bind of a type 2 window would be refused. None comes exactly where it would not.
    pub fn bind2_refusal(
        &self,
        r: Option<&RegionView>,
        address: u64,
        length: u32,
        rights: Rights,
    ) -> Option<WindowError>
        ensures { result ≡ first_of (windows.bind2_refusals (option_copied r.entry) address length rights self.now) }
    {
        match self.kind {
            Kind::Vacant => Some(WindowError::NoWindow),
            Kind::Type1 => Some(WindowError::WrongType),
            Kind::Type2 if self.binding.is_some() => Some(WindowError::StillBound),
            Kind::Type2 if length == 0 => Some(WindowError::Empty),
            Kind::Type2 => binding_refusal(r, address, length, rights),
        }
    }

    fn invalidation_refusal(&self, key: Key, queue: QueueId) -> Option<WindowError>
        ensures { result ≡ first_of (windows.window_invalidation_refusals key queue self.now) }
    {
        match self.kind {
            Kind::Vacant => return Some(WindowError::NoWindow),
            Kind::Type1 => return Some(WindowError::Type1),
            Kind::Type2 => {}
        }
        let Some(b) = self.binding else {
            return Some(WindowError::NotBound);
        };
        if self.key() != key {
            return Some(WindowError::KeyDiffers);
        }
        if !is_of_queue(queue, b.queue) {
            return Some(WindowError::WrongQueue);
        }
        None
    }
}

fn is_of_queue(queue: QueueId, named: Option<QueueId>) -> bool
    ensures { result ≡ option_map_or (queue_eq queue) named false }
{
    match named {
        None => false,
        Some(named) => named == queue,
    }
}
