ghost use Rattle.impose_laws.specs.Laws.{ChildrenCoverTheTask, ChildrenKeepTheForm, ChildrenAreFew};

/// No point of a task is lost where the first polynomial of its queue is imposed.
pub fn children_cover_the_task()
    ensures { ChildrenCoverTheTask }
{}

/// Children are tasks over the same field, in the variables of the task.
pub fn children_keep_the_form()
    ensures { ChildrenKeepTheForm }
{}

/// Where no polynomial of the triangular set has a degree above `d`, there are at most `max 2 d`
/// children.
pub fn children_are_few()
    ensures { ChildrenAreFew }
{}
