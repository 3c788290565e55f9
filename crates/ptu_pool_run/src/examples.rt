//! Small lines and what they are, and small scripts and their outputs. Each clause is one line or
//! script; the bodies are empty.

ghost use Rattle.std.specs.Prelude.{◌≡◌, ◌∷◌, [], Some, None, Ok, codes};
ghost use Rattle.ptu_world.specs.Samples.{lines_of};
ghost use Rattle.ptu_lines.specs.declared.cause.LineCause.TheVariants as causes;
ghost use Rattle.ptu_outside.specs.declared.channel.Channel.TheVariants as channels;
ghost use Rattle.ptu_pool_run.specs.{Command.{IsPoolLineRefused, pool_command_of}, Output.{pool_line_text}};
ghost use Rattle.ptu_pool_run.specs.Poured.{poured_texts, told_in};
ghost use Rattle.ptu_pool_run.specs.Promises.{AreMessagesWritten, turns_of_pool};
ghost use Rattle.ptu_pool_run.specs.Samples.{requests, requests_output, taking_turns, taking_turns_output};
ghost use Rattle.ptu_pool_run.specs.Samples.{no_network, overlapping, setup_of_customers, too_much};
ghost use Rattle.ptu_pool_run.specs.declared.cause.PoolCause.TheVariants as refused;
ghost use Rattle.ptu_pool_run.specs.declared.command.PoolCommand.TheVariants as commands;
ghost use Rattle.ptu_pool_run.specs.declared.output.PoolLine.TheVariants as lines;

/// One line of each form.
#[tactic(auto, unfolding(crate::proofs::OnLiterals::pools_on_literals))]
pub fn good_lines()
    ensures empty { pool_command_of [] ≡ Ok None }
    ensures comment { pool_command_of (codes "#pool") ≡ Ok None }
    ensures gm { pool_command_of (codes "gm 10.0.0.1 0a00000000000001 1 4 84 16 300")
        ≡ Ok (Some (commands.Grandmaster setup_of_customers)) }
    ensures pool { pool_command_of (codes "pool 10.0.1.0 24 8")
        ≡ Ok (Some (commands.Sell (record { net = 0x0A000100; bits = 24; capacity = 8 }))) }
    ensures rx { pool_command_of (codes "rx 5 10.0.1.17 0cFf")
        ≡ Ok (Some (commands.Receive 5 0x0A000111 (12 ∷ 255 ∷ []))) }
    ensures rx_of_nothing { pool_command_of (codes "rx 0 10.0.1.17 -")
        ≡ Ok (Some (commands.Receive 0 0x0A000111 [])) }
    ensures turn { pool_command_of (codes "turn 4611686018427387903 16 3")
        ≡ Ok (Some (commands.Turn 4611686018427387903 16 3)) }
{}

/// Lines that are refused, each for the first cause that applies.
#[tactic(auto, unfolding(crate::proofs::OnLiterals::pools_on_literals))]
pub fn refused_lines()
    ensures word { IsPoolLineRefused (codes "slave 1 2 3") causes.Word }
    ensures word_of_a_blank { IsPoolLineRefused (codes " turn 0 1 0") causes.Word }
    ensures count { IsPoolLineRefused (codes "pool 10.0.1.0 24") causes.Count }
    ensures count_of_two_spaces { IsPoolLineRefused (codes "turn  0 1 0") causes.Count }
    ensures rx_of_a_node { IsPoolLineRefused (codes "rx 0 10.0.0.1 10.0.1.17 -") causes.Count }
    ensures bits { IsPoolLineRefused (codes "pool 10.0.1.0 33 8") (causes.Field 3) }
    ensures capacity { IsPoolLineRefused (codes "pool 10.0.1.0 24 16777217") (causes.Field 4) }
    ensures no_capacity { IsPoolLineRefused (codes "pool 10.0.1.0 24 0") (causes.Field 4) }
    ensures least_field { IsPoolLineRefused (codes "pool 10.0.1 33 0") (causes.Field 2) }
    ensures moment { IsPoolLineRefused (codes "turn 4611686018427387904 0 4") (causes.Field 2) }
    ensures pool_zero { IsPoolLineRefused (codes "turn 0 0 0") (causes.Field 3) }
    ensures pool_seventeen { IsPoolLineRefused (codes "turn 0 17 0") (causes.Field 3) }
    ensures table { IsPoolLineRefused (codes "turn 0 1 4") (causes.Field 4) }
    ensures octets { IsPoolLineRefused (codes "rx 0 10.0.1.17 0c1") (causes.Field 4) }
{}

/// One line of output of each form.
pub fn lines_of_output()
    ensures sent { pool_line_text (lines.Sent 4 1 channels.General 0x0A000111 (0 ∷ 255 ∷ []))
        ≡ codes "4 pool 1 send general 10.0.1.17 00ff\n" }
    ensures stranger { pool_line_text (lines.Stranger 7) ≡ codes "7 stranger\n" }
    ensures bad { pool_line_text (lines.Bad 2 (refused.Line (causes.Field 5))) ≡ codes "2 bad field 5\n" }
    ensures over { pool_line_text (lines.Bad 3 refused.Over) ≡ codes "3 bad over\n" }
    ensures end { pool_line_text (lines.End 7) ≡ codes "end 7\n" }
{}

/// Two customers of one grandmaster: each is granted what fits in its own pool and denied what does
/// not, whatever the other holds, and is sent its own messages alone; a stranger is sent nothing.
pub fn two_customers()
    ensures requests { poured_texts requests ≡ requests_output }
    ensures turns { poured_texts taking_turns ≡ taking_turns_output }
{}

/// The moments at which the two customers' tables take turns: those of each customer's own turns,
/// by table. `KeepsPools` promises messages in time by these moments.
pub fn turns_of_customers()
    ensures set_up { (told_in taking_turns).setup ≡ Some setup_of_customers }
    ensures first { turns_of_pool setup_of_customers (told_in taking_turns) 0 2
        ≡ 1999999999 ∷ 2000000000 ∷ [] }
    ensures second { turns_of_pool setup_of_customers (told_in taking_turns) 1 2
        ≡ 2000000000 ∷ 2000000000 ∷ [] }
    ensures other_table { turns_of_pool setup_of_customers (told_in taking_turns) 0 1 ≡ [] }
{}

/// The one Announce in each customer's lines is that in its pool's history: to the same address, at
/// the same moment and of the same number.
pub fn messages_of_customers()
    ensures first { AreMessagesWritten taking_turns setup_of_customers 0 }
    ensures second { AreMessagesWritten taking_turns setup_of_customers 1 }
{}

/// Pools that are not sold, which end the output.
pub fn refused_pools()
    ensures over { poured_texts too_much ≡ lines_of (codes "3 bad over" ∷ []) }
    ensures net { poured_texts no_network ≡ lines_of (codes "2 bad net" ∷ []) }
    ensures overlap { poured_texts overlapping ≡ lines_of (codes "3 bad overlap" ∷ []) }
{}
