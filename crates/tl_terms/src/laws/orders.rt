// The orders of values, keys, actions and plans.
ghost use Rattle.tl_terms.specs.LawsOrders.{ValueOrderIsTotal, KeyOrderIsTotal, ActionOrderIsTotal, PlanOrderIsTotal, PrefixComesBefore};

/// Values are ordered totally.
pub fn value_order_is_total()
    ensures { ValueOrderIsTotal }
{}

/// Facts and places are ordered totally.
pub fn key_order_is_total()
    ensures { KeyOrderIsTotal }
{}

/// Actions are ordered totally.
pub fn action_order_is_total()
    ensures { ActionOrderIsTotal }
{}

/// Plans are ordered totally.
pub fn plan_order_is_total()
    ensures { PlanOrderIsTotal }
{}

/// A plan comes before every longer plan that begins with it.
pub fn prefix_comes_before()
    ensures { PrefixComesBefore }
{}
