//! Laws of what a table stands for. Each function does nothing: its contract is the law.

ghost use Rattle.std.specs.Prelude.{◌≡◌, ℕ, ◌≤◌, ◌⊎◌, ◌++◌, [], ◌∷◌, List, false, nat_lt};
ghost use Rattle.std.specs.Option.{option_map_or};
ghost use Rattle.ptu_units.specs.declared.kind.Kind.{Kind};
ghost use Rattle.ptu_units.specs.{declared.client.Client.{Client}, Client.{table_of}};
ghost use Rattle.ptu_history.specs.{History.{Record, concerns}, Moments.{table_part}, Live.{live}};
ghost use Rattle.ptu_shard.specs.{declared.lease.Row.{Row}, Row.{lease_of}, Table.{StandsAt}};

/// What the rows of a table say of its clients, at a moment that the book or the table has reached.
pub fn live_leases()
    ensures { (book j : ℕ) (rows : List Row) (moment : ℕ) (history : List Record) (x : ℕ)
        (c : Client) (k : Kind) →
        StandsAt book j rows moment history → (book ≤ x) ⊎ (moment ≤ x) → table_of c ≡ j →
        live history x c k
        ≡ option_map_or (λ lease. nat_lt x lease.until) (lease_of c k rows) false }
{}

/// A record that concerns no client of the table, at a moment that the table has reached, is
/// passed.
pub fn records_elsewhere()
    ensures { (book j : ℕ) (rows : List Row) (moment : ℕ) (history : List Record) (r : Record) →
        StandsAt book j rows moment history →
        ((c : Client) (k : Kind) → table_of c ≡ j → concerns c k r ≡ false)
        → table_part j r ≤ moment →
        StandsAt book j rows moment (history ++ r ∷ []) }
{}
