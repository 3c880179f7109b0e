//! What running nodes come to, of the least machine.
use std::test::Fail;
use toy_machine::Toy;
use world_views::{
    committed_lists_agree, merged_records_replay, no_more_leaves_than_is_agreed,
    no_number_is_handed_by_two_nodes, openings_go_on_from_events, records_merge,
    records_merge_in_one_way, turns_are_events_of_the_history, views_have_one_history,
    what_was_sent_is_not_read,
};

#[test]
fn the_laws_hold_of_the_toy_machine(_rt: HostRuntime) -> Result<(), Fail> {
    what_was_sent_is_not_read::<Toy>();
    records_merge::<Toy>();
    records_merge_in_one_way::<Toy>();
    openings_go_on_from_events::<Toy>();
    views_have_one_history::<Toy>();
    merged_records_replay::<Toy>();
    committed_lists_agree::<Toy>();
    turns_are_events_of_the_history::<Toy>();
    no_more_leaves_than_is_agreed::<Toy>();
    no_number_is_handed_by_two_nodes::<Toy>();
    Ok(())
}
