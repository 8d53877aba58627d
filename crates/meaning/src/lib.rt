// What statements, facts and answers mean. The definitions beside the code say what an interpretation is and when it
// satisfies a statement, and what each kind of fact says in it; the contracts carry the theorems: proof trees are sound,
// closed marks without a clash have a small countermodel, and yes, no and clash mean what they should. Nothing here knows
// of stores, bytes or text.
#![tactic(auto)]

pub mod answers;
