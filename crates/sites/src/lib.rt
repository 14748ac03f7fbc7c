// Sites of an explicit tree: the redexes among its subterms, as a strategy is shown them, and the outermost choice.
//
// `site::redexes` lists the redexes in sheet order, `site::sites` makes a `site::Site` of each, with its number, its rule and
// whether it is outer and inner, and `site::outermost` chooses one. Trees and cards come from the crate `explicit`, the rule
// that fits from `matching`, subterms in sheet order from `listing`.
//
// Each function is proved to answer what the theory of the crate `rewriting` computes. What allocates may find no memory,
// and then says so by `AllocError`; nothing else can fail.

#![tactic(auto)]

pub mod site;
