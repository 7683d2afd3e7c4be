// The order of a disarm's tests, in which src/seq.rs has them. Nothing here runs.
#![tactic(auto)]

ghost use Rattle.disarm_order.specs.Order.{InOrder};

/// An accepted feed of a disarm answers by the tests of its step, in the order of src/seq.rs: the first that applies decides. Mode and text can
/// change places without another answer; the acknowledgement put first would answer each `ConfigAck` from the Dsp otherwise.
pub fn in_the_order_of_seq()
    ensures { InOrder }
{}
