//! Laws of every world that a script reaches. Each function does nothing: its contract is the law,
//! which holds for every script, whatever it sets up, hands over, loses, repeats or changes, at any
//! moments in any order, and after each of its lines that is taken.
ghost use Rattle.std.specs.Prelude.{◌≡◌, ◌≢◌, ℕ, List, [], ◌∷◌, Some, Ok};
ghost use Rattle.ptu_script.specs.declared.command.Command.{Command};
ghost use Rattle.ptu_script.specs.declared.act.Act.TheVariants as acts;
ghost use Rattle.ptu_script.specs.declared.command.Command.TheVariants as commands;
ghost use Rattle.ptu_history.specs.Events as events;
ghost use Rattle.ptu_history.specs.Core.{core_history, core_moment};
ghost use Rattle.ptu_laws.specs.{Promises.{KeepsPromises}, Turned.{turn_moments}};
ghost use Rattle.ptu_world.specs.Deeds.{Grandmaster, IsGrandmaster};
ghost use Rattle.ptu_world.specs.World.{World, Stock, opening, node_at};
ghost use Rattle.ptu_world.specs.Facts.{world_of};
ghost use Rattle.ptu_world.specs.Headline.{DecidesByRoom, HasGrandmaster, NumbersDatagrams, PaysPeriods, RecordsDeliveries, RecordsEvents, SaysSo, SelectsBest, SendsInTime, ServesEachClient, SignalsAnswers, WithinBudget, WithinCapacity};
ghost use Rattle.ptu_world.specs.{Reached.{Reaches}, Turning.{turn_by, turns_of}};
ghost use Rattle.ptu_world.specs.Promises.{AreMessagesSent, IsRun};
ghost use Rattle.ptu_world.specs.Grandmasters as gm;

/// The headline: over every script, at every moment the granted rates of each grandmaster sum to at
/// most its capacity; each REQUEST that a datagram brings is granted exactly where its rate fits
/// beside the other live grants, and else answered with the duration zero; each message takes a
/// period of its own inside a live grant; what is handed to a grandmaster, each of its turns and
/// each change of its capacity makes its history go on with just the events that it is, so that a
/// CANCEL ends its grant; it signals the one reply to each Signaling with items and the CANCEL of
/// each grant that it sheds, and nothing else; all messages are within the budget; each client gets
/// no more messages of a kind than whole periods in which it held a grant, and, of Announce and
/// Sync, no fewer than one in each period and the time between turns; each slave selects its best
/// eligible master by a record of just what was delivered to it; the report says so of each line
/// that is taken, and nothing else; and datagrams are numbered in the order in which they are sent,
/// and delivered as they were.
pub fn headline()
    ensures within_capacity { (stock : Stock) (script : List ℕ) → WithinCapacity stock script }
    ensures granted_by_room { (stock : Stock) (script : List ℕ) → DecidesByRoom stock script }
    ensures own_periods { (stock : Stock) (script : List ℕ) → PaysPeriods stock script }
    ensures recorded { (stock : Stock) (script : List ℕ) → RecordsEvents stock script }
    ensures signalled { (stock : Stock) (script : List ℕ) → SignalsAnswers stock script }
    ensures within_budget { (stock : Stock) (script : List ℕ) → WithinBudget stock script }
    ensures each_client { (stock : Stock) (script : List ℕ) → ServesEachClient stock script }
    ensures in_time { (stock : Stock) (script : List ℕ) → SendsInTime stock script }
    ensures best_master { (stock : Stock) (script : List ℕ) → SelectsBest stock script }
    ensures delivered { (stock : Stock) (script : List ℕ) → RecordsDeliveries stock script }
    ensures says_so { (stock : Stock) (script : List ℕ) → SaysSo stock script }
    ensures datagrams { (stock : Stock) (script : List ℕ) → NumbersDatagrams stock script }
{}

/// The turns of a table that the lines of a script hand a grandmaster are those of some events that
/// make its history, each at the moment at which it is taken.
pub fn turns()
    ensures taken { (stock : Stock) (script : List ℕ) (w : World) (ip : ℕ) (g : Grandmaster)
        (h : HasGrandmaster stock script w ip g) (table : ℕ) →
        (taken : List (ℕ × events.Event)) × (g.past ≡ core_history (gm.opening g) taken)
        × (turn_moments (gm.opening g) taken table
        ≡ turns_of ip table (opening stock) h.reached.taken w h.reached.leads) }
    ensures one { (w : World) (ip : ℕ) (g : Grandmaster) (t table : ℕ) →
        node_at w.nodes ip ≡ Some (IsGrandmaster g) →
        turn_by ip table w (commands.Event t ip (acts.Turn table))
        ≡ core_moment g.past t (events.Turn table) ∷ [] }
{}

/// A script reaches the world before its first line, and that at its end.
pub fn reached_worlds()
    ensures opening { (stock : Stock) (script : List ℕ) → Reaches stock script (opening stock) }
    ensures last { (stock : Stock) (script : List ℕ) →
        Reaches stock script (world_of stock script) }
{}

/// Each grandmaster stands at its address, within its limits, and its history is that which some
/// events make of the empty one. So whatever holds of every such history holds of it: at every
/// moment the granted rates sum to at most the capacity in force, each message takes a period of
/// its own inside a live grant, and the messages up to every moment are within the budget.
pub fn grandmasters()
    ensures run { (stock : Stock) (script : List ℕ) (w : World) (ip : ℕ) (g : Grandmaster) →
        Reaches stock script w → node_at w.nodes ip ≡ Some (IsGrandmaster g) → IsRun ip g }
    ensures promises { (stock : Stock) (script : List ℕ) (w : World) (ip : ℕ) (g : Grandmaster) →
        Reaches stock script w → node_at w.nodes ip ≡ Some (IsGrandmaster g) →
        KeepsPromises g.capacity g.past }
    ensures messages { (stock : Stock) (script : List ℕ) (w : World) (ip : ℕ) (g : Grandmaster) →
        Reaches stock script w → node_at w.nodes ip ≡ Some (IsGrandmaster g)
        → AreMessagesSent w ip g }
{}
