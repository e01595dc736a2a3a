//! The items and the warehouses of a book.

ghost use Rattle.std.specs.Prelude.{◌≡◌, ◌-◌, [], ◌∷◌, ◌++◌, length, take, None, unwrap_or, IfErr, OnOk, OnErr};
ghost use Rattle.item_master.specs.Faults.{item_fault, store_fault};
ghost use Rattle.stock_nums.specs.Heads.{item_in, store_in};

use crate::faults::MasterFault;
use crate::register::Register;
use std::alloc::Global;
use std::marker::Model;
use stock_nums::cause::Method;
use stock_nums::code::Code;
use stock_nums::numbers::{AccountNo, ItemNo, RecordNo, StoreNo};

/// The items and the warehouses of a book. Contracts see two lists of heads, each in the order in which
/// they were added. Items and warehouses have separate names: both may have the same code.
#[derive(Drop)]
pub struct Master {
    alloc: Global,
    items: Register<(ItemNo, Method)>,
    stores: Register<(StoreNo, AccountNo)>,
}

impl Model for Master {
    ghost use Rattle.std.specs.Prelude.{map};
    ghost use Rattle.item_master.specs.State.{MasterState};

    ghost Value = { MasterState };

    ghost use Rattle.item_master.specs.Register.{item_head, store_head};

    ghost view = { λ master. record { items = map item_head master.items; stores = map store_head master.stores } };
}

impl Master {
    /// No item and no warehouse. It takes no memory.
    pub fn new(alloc: Global) -> Master
        ensures items { result.items ≡ [] }
        ensures stores { result.stores ≡ [] }
    {
        Master {
            alloc,
            items: Register::new(alloc),
            stores: Register::new(alloc),
        }
    }

    /// The item with this code, and its cost formula. None exactly where no item has the code. It takes
    /// no memory.
    pub fn item(&self, code: &Code) -> Option<(ItemNo, Method)>
        ensures { result ≡ item_in self.now.items code.now }
    {
        self.items.value_of(code)
    }

    /// The warehouse with this code, and its account. None exactly where no warehouse has the code. It
    /// takes no memory.
    pub fn store(&self, code: &Code) -> Option<(StoreNo, AccountNo)>
        ensures { result ≡ store_in self.now.stores code.now }
    {
        self.stores.value_of(code)
    }

    /// Adds an item at the end of the items. Else it refuses it for its first fault, or for want of memory
    /// where it has none. A refusal changes nothing.
    pub fn add_item(
        &mut self,
        number: RecordNo,
        code: &Code,
        method: Method,
    ) -> Result<(), MasterFault>
        ensures sound { OnOk result (item_fault self.old.items code.now ≡ None) }
        ensures added { OnOk result (self.new.items ≡ self.old.items ++ record { number = number.0; code = code.now; method = method } ∷ []) }
        ensures stores_stay { self.new.stores ≡ self.old.stores }
        ensures fault { IfErr result (λ f. f ≡ unwrap_or (item_fault self.old.items code.now) MasterFault.NoMemory) }
        ensures unchanged { OnErr result (self.new ≡ self.old) }
    {
        if let Some(fault) = self.item_fault(code) {
            return Err(fault);
        }
        let made = (ItemNo(number.0), method);
        match self.items.add(self.alloc, code, made) {
            Ok(()) => Ok(()),
            Err(_) => Err(MasterFault::NoMemory),
        }
    }

    /// Adds a warehouse at the end of the warehouses. Else it refuses it for its first fault, or for want of
    /// memory where it has none. A refusal changes nothing.
    pub fn add_store(
        &mut self,
        number: RecordNo,
        code: &Code,
        account: AccountNo,
    ) -> Result<(), MasterFault>
        ensures sound { OnOk result (store_fault self.old.stores code.now account.0 ≡ None) }
        ensures added { OnOk result (self.new.stores ≡ self.old.stores ++ record { number = number.0; code = code.now; account = account.0 } ∷ []) }
        ensures items_stay { self.new.items ≡ self.old.items }
        ensures fault { IfErr result (λ f. f ≡ unwrap_or (store_fault self.old.stores code.now account.0) MasterFault.NoMemory) }
        ensures unchanged { OnErr result (self.new ≡ self.old) }
    {
        if let Some(fault) = self.store_fault(code, account) {
            return Err(fault);
        }
        let made = (StoreNo(number.0), account);
        match self.stores.add(self.alloc, code, made) {
            Ok(()) => Ok(()),
            Err(_) => Err(MasterFault::NoMemory),
        }
    }

    /// Takes the item that was added last away again. Where there is none it changes nothing. It takes no
    /// memory.
    pub fn pop_item(&mut self)
        ensures items { self.new.items ≡ take (length self.old.items - 1) self.old.items }
        ensures stores_stay { self.new.stores ≡ self.old.stores }
    {
        self.items.pop();
    }

    /// Takes the warehouse that was added last away again. Where there is none it changes nothing. It
    /// takes no memory.
    pub fn pop_store(&mut self)
        ensures stores { self.new.stores ≡ take (length self.old.stores - 1) self.old.stores }
        ensures items_stay { self.new.items ≡ self.old.items }
    {
        self.stores.pop();
    }

    // Why an item with this code is refused.
    fn item_fault(&self, code: &Code) -> Option<MasterFault>
        ensures { result ≡ item_fault self.now.items code.now }
    {
        if self.item(code).is_some() {
            Some(MasterFault::CodeTaken)
        } else if !code.is_well_formed() {
            Some(MasterFault::CodeShape)
        } else {
            None
        }
    }

    // Why a warehouse with this code and account is refused.
    fn store_fault(&self, code: &Code, account: AccountNo) -> Option<MasterFault>
        ensures { result ≡ store_fault self.now.stores code.now account.0 }
    {
        if self.store(code).is_some() {
            Some(MasterFault::CodeTaken)
        } else if !code.is_well_formed() {
            Some(MasterFault::CodeShape)
        } else if !account.is_of_store() {
            Some(MasterFault::AccountRange)
        } else {
            None
        }
    }
}
