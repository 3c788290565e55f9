//! Small reports and the answers to them. Each clause is one report; the bodies are empty.

ghost use Rattle.std.specs.Prelude.{◌≡◌, Some, codes};
ghost use Rattle.ptu_trail.specs.declared.cause.NoCause.TheVariants.{Reply};
ghost use Rattle.ptu_audit.specs.declared.answer.Answer.TheVariants.{Yes, No};
ghost use Rattle.ptu_audit.specs.Samples.{notice, decided, denied_often, ended, syncs_grant, sync_lines, shed};

/// A request that was granted: the GRANT invites a renewal, and is of the kind, the logarithm and
/// the time that the report names.
pub fn grants()
    ensures granted { decided sync_lines syncs_grant ≡ Some (Yes 1 0) }
    ensures uninvited { decided sync_lines (codes "0005000800000000012c0000") ≡ Some (No 1 Reply) }
    ensures other_log { decided sync_lines (codes "0005000800010000012c0001") ≡ Some (No 1 Reply) }
    ensures other_kind { decided sync_lines (codes "00050008b0000000012c0001") ≡ Some (No 1 Reply) }
    ensures other_time { decided sync_lines (codes "0005000800000000012b0001") ≡ Some (No 1 Reply) }
{}

/// A request that was not granted: the GRANT is for no time and invites no renewal, and is of the
/// logarithm that the report names.
pub fn denials_of_requests()
    ensures short { decided (codes "2 short sync 0 at 0 others 8 rate 16 capacity 16")
        (codes "000500080000000000000000") ≡ Some (Yes 0 0) }
    ensures invited { decided (codes "2 short sync 0 at 0 others 8 rate 16 capacity 16")
        (codes "000500080000000000000001") ≡ Some (No 1 Reply) }
    ensures some_time { decided (codes "2 short sync 0 at 0 others 8 rate 16 capacity 16")
        (codes "0005000800000000003c0000") ≡ Some (No 1 Reply) }
    ensures other_log { decided (codes "2 short sync 0 at 0 others 8 rate 16 capacity 16")
        (codes "000500080001000000000000") ≡ Some (No 1 Reply) }
    ensures outside_log { decided (codes "2 outside log sync 5")
        (codes "000500080005000000000000") ≡ Some (Yes 0 0) }
    ensures outside_other_log { decided (codes "2 outside log sync 5")
        (codes "000500080000000000000000") ≡ Some (No 1 Reply) }
    ensures outside_duration { decided (codes "2 outside duration sync 1 30")
        (codes "000500080000000000000000") ≡ Some (No 1 Reply) }
    ensures outside_type { decided (codes "2 outside type 12")
        (codes "00050008c000000000000000") ≡ Some (Yes 0 0) }
    ensures outside_type_invited { decided (codes "2 outside type 12")
        (codes "00050008c000000000000001") ≡ Some (No 1 Reply) }
    ensures outside_type_some_time { decided (codes "2 outside type 12")
        (codes "00050008c0000000003c0000") ≡ Some (No 1 Reply) }
{}

/// A CANCEL: the acknowledgement is of its kind, also where nothing was live, or of its code.
pub fn acknowledgements()
    ensures cancelled { ended (codes "2 cancelled sync at 5") (codes "000700020000")
        ≡ Some (Yes 0 0) }
    ensures cancelled_other { ended (codes "2 cancelled sync at 5") (codes "00070002b000")
        ≡ Some (No 1 Reply) }
    ensures nothing { ended (codes "2 nothing sync at 5") (codes "000700020000")
        ≡ Some (Yes 0 0) }
    ensures nothing_other { ended (codes "2 nothing sync at 5") (codes "000700029000")
        ≡ Some (No 1 Reply) }
    ensures no_kind_other { ended (codes "2 nothing 12") (codes "000700020000")
        ≡ Some (No 1 Reply) }
{}

/// A grant that was shed: its client is told by a CANCEL of its kind, from that grandmaster, to its
/// address and its identity.
pub fn sheddings()
    ensures told { shed (notice (codes "10.0.0.1 10.0.1.17") (codes "0a000000000000110001")
        (codes "000600020000")) ≡ Some (Yes 1 0) }
    ensures other_kind { shed (notice (codes "10.0.0.1 10.0.1.17") (codes "0a000000000000110001")
        (codes "00060002b000")) ≡ Some (No 3 Reply) }
    ensures other_address { shed (notice (codes "10.0.0.1 10.0.1.18")
        (codes "0a000000000000110001") (codes "000600020000")) ≡ Some (No 3 Reply) }
    ensures other_clock { shed (notice (codes "10.0.0.1 10.0.1.17") (codes "0a000000000000120001")
        (codes "000600020000")) ≡ Some (No 3 Reply) }
    ensures other_port { shed (notice (codes "10.0.0.1 10.0.1.17") (codes "0a000000000000110002")
        (codes "000600020000")) ≡ Some (No 3 Reply) }
    ensures other_sender { shed (notice (codes "10.0.0.2 10.0.1.17") (codes "0a000000000000110001")
        (codes "000600020000")) ≡ Some (No 3 Reply) }
{}

/// A group has at most 32 decisions.
pub fn groups()
    ensures full { denied_often 32 (codes "01ac") ≡ Some (Yes 0 0) }
    ensures more { denied_often 33 (codes "01b8") ≡ Some (No 1 Reply) }
{}
