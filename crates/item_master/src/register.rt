//! Codes with what they stand for, found without going over them.

ghost use Rattle.std.specs.Prelude.{◌≡◌, ◌-◌, [], ◌∷◌, ◌++◌, length, take, None, OnOk, OnErr};
ghost use Rattle.item_master.specs.Register.{value_of};

use std::alloc::Global;
use std::collections::BTreeMap;
use std::marker::Model;
use stock_nums::code::Code;
use stock_nums::memory::NoMemory;

/// Values with the codes under which they were added, in that order. A code is added once. Contracts
/// see the list of the codes and their values.
#[derive(Drop)]
pub(crate) struct Register<V> {
    entries: Vec<(Code, V)>,
    by_code: BTreeMap<String, V>,
}

impl<V> Model for Register<V> {
    ghost use Rattle.std.specs.Prelude.{List, ℕ};
    ghost use Rattle.item_master.specs.Register.{IsRegister};

    ghost Value = { List (List ℕ × V) };

    ghost view = { λ register. register.entries.items };

    ghost invariant = { λ register. IsRegister register.entries.items register.by_code };
}

impl<V: Copy + Drop> Register<V> {
    /// The empty register. It takes no memory.
    pub(crate) fn new(alloc: Global) -> Register<V>
        ensures { result ≡ [] }
    {
        Register {
            entries: Vec::new(alloc),
            by_code: BTreeMap::new(alloc),
        }
    }

    /// The value that was added with this code. It takes no memory.
    pub(crate) fn value_of(&self, code: &Code) -> Option<V>
        ensures { result ≡ value_of self.now code.now }
    {
        self.by_code.get(code.text()).copied()
    }

    /// Adds a value under a code that has none.
    pub(crate) fn add(&mut self, alloc: Global, code: &Code, value: V) -> Result<(), NoMemory>
        requires { value_of self.old code.now ≡ None }
        ensures added { OnOk result (self.new ≡ self.old ++ (code.now, value) ∷ []) }
        ensures unchanged { OnErr result (self.new ≡ self.old) }
    {
        let key = String::from_str(alloc, code.text())?;
        let entry = (code.copy(alloc)?, value);
        self.entries.reserve(1)?;
        self.by_code.insert(key, value)?;
        self.entries.push_reserved(entry);
        Ok(())
    }

    /// Takes the last value away again. Where there is none it changes nothing. It takes no memory.
    pub(crate) fn pop(&mut self)
        ensures { self.new ≡ take (length self.old - 1) self.old }
    {
        if let Some((code, _)) = self.entries.pop() {
            let _ = self.by_code.remove(code.text());
        }
    }
}
