// The derived tests of equality and the derived orders.
ghost use Rattle.tl_syntax.specs.DerivedTests.{TellsSame, OrdersAs, op_eq, cmp_eq, value_eq, values_eq, values_order, var_eq, vars_eq, arg_eq, args_eq, bound_eq, fact_eq, fact_order, place_value_eq, action_eq, value_order};
ghost use Rattle.tl_syntax.specs.Keys.{value_cmp, fact_cmp};
ghost use Rattle.std.specs.Cmp.Lexicographic.{slice_cmp};

/// The derived equality of each type that does not hold itself holds exactly where the two are the
/// same.
/// Terms and formulas have `is_same`.
pub fn equality_is_sameness()
    ensures op { TellsSame op_eq }
    ensures cmp { TellsSame cmp_eq }
    ensures value { TellsSame value_eq }
    ensures values { TellsSame values_eq }
    ensures var { TellsSame var_eq }
    ensures vars { TellsSame vars_eq }
    ensures arg { TellsSame arg_eq }
    ensures args { TellsSame args_eq }
    ensures bound { TellsSame bound_eq }
    ensures fact { TellsSame fact_eq }
    ensures place_value { TellsSame place_value_eq }
    ensures action { TellsSame action_eq }
{}

/// The derived order of values is value order, that of their lists lexicographic, and that of facts
/// by predicate and then by arguments.
pub fn orders_are_value_order()
    ensures value { OrdersAs value_order value_cmp }
    ensures values { OrdersAs values_order (slice_cmp value_cmp) }
    ensures fact { OrdersAs fact_order fact_cmp }
{}
