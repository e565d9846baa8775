// The lists that say a machine.
ghost use Rattle.ebs_point_rules.specs.Listed.{ListsSayMachines, ListsAscend};

/// A checkpoint whose lists have just a machine's rows, in the order of its maps, says the machine, and is in order where those are.
pub fn lists_say_machines()
    ensures says { ListsSayMachines }
    ensures ascend { ListsAscend }
{}
