use ptu_record::{Quality, quality_of};

// What the choice of a master does not show: a class without a level and that of QL-DNU are both
// never selected. It refuses a level that is none, and one that is another.
#[test]
fn quality_levels(rt: HostRuntime) {
    let levels = (quality_of(110), quality_of(6), quality_of(255));
    assert_eq!(rt; levels, (Some(Quality::Dnu), None, None));
    let found = (
        Quality::SsuA.class(),
        Quality::Prc.is_better_than(Quality::SsuA),
        Quality::Dnu.is_usable(),
    );
    assert_eq!(rt; found, (90, true, false));
}
