//! How often each kind of call is drawn.
ghost use Rattle.std.specs.Prelude.{◌≡◌, ◌+◌, ◌<◌, ◌≤◌};
ghost use Rattle.test_tools.specs.declared.sharing.Kind.TheVariants.{Put, Remove, Find, Freeze};

/// How often each kind of call is drawn, relative to the others.
#[derive(Clone, Copy, Debug, PartialEq, Eq, Drop)]
pub struct Shares {
    pub puts: u64,
    pub removes: u64,
    pub finds: u64,
    pub freezes: u64,
}

/// A kind of call.
#[derive(Clone, Copy, Debug, PartialEq, Eq, Drop)]
pub enum Kind {
    Put,
    Remove,
    Find,
    Freeze,
}

impl Shares {
    /// Returns the sum of all shares, or the largest number if the sum is larger.
    pub fn all(&self) -> u64 {
        self.puts
            .saturating_add(self.removes)
            .saturating_add(self.finds)
            .saturating_add(self.freezes)
    }

    /// Returns the kind of call that a number below the sum of all shares selects: first come the
    /// puts, then the removes, the finds, and the freezes.
    pub fn kind_at(&self, number: u64) -> Kind
        ensures put { number < self.now.puts → result ≡ Put }
        ensures remove { let updates = self.now.puts + self.now.removes in
            self.now.puts ≤ number → number < updates → result ≡ Remove }
        ensures find { let updates = self.now.puts + self.now.removes in
            updates ≤ number → number < updates + self.now.finds → result ≡ Find }
        ensures freeze { let updates = self.now.puts + self.now.removes in
            updates + self.now.finds ≤ number → result ≡ Freeze }
    {
        if number < self.puts {
            return Kind::Put;
        }
        let after_puts = number - self.puts;
        if after_puts < self.removes {
            return Kind::Remove;
        }
        if after_puts - self.removes < self.finds {
            Kind::Find
        } else {
            Kind::Freeze
        }
    }
}
