//! The step of a task of the solver: what becomes of a task whose queue is empty, and of any task.
#![tactic(auto)]
