// What a draft is, over any lawful tone, squares and quantiser: specs/ has the definitions, and the theorems about them stand here.
#![tactic(auto)]

mod laws;

pub use laws::{
    amount_satisfies_the_recursion, codes_tell_the_set, draft_depends_on_order_and_tables,
    every_drawing_is_lawful, fix_adds_one_square, last_higher_neighbour_receives_the_rest,
    losses_are_the_fixed_barons, no_squares_and_all_squares_are_closed,
    nothing_else_satisfies_the_recursion, order_leaves_no_trace, parts_add_up_to_the_error,
    plain_drawing_keeps_the_laws, replay_gives_the_bands_of_the_set, some_square_is_ready,
    sweep_finishes_a_closed_set, sweep_fixes_every_open_square, total_is_kept,
};
