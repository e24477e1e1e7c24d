ghost use Rattle.std.specs.Prelude.{◌≡◌, ◌<◌, ◌-◌, ◌↔◌, List, [], ◌∷◌, ◌++◌, length, IsTrue, IsNone, IfSome, IfNone, IfErr, OnOk, OnErr, slice_get, slice_set};
ghost use Rattle.std.specs.Iterator.Runs.{YieldsRefsInOrder};
ghost use Rattle.std.specs.Option.{option_copied};
ghost use Rattle.std.specs.VecDeque.Iter.{deque_iter_rest, deque_iter_steps};

use std::alloc::{AllocError, AllocFailed, Global};
use std::collections::VecDeque;
use std::collections::vec_deque::Iter;
use std::marker::Model;

/// A list of items, the first in front. Both ends are reached at constant cost.
#[derive(Clone, Debug, Drop)]
pub struct Items<T> {
    queue: VecDeque<T>,
}

impl<T> Model for Items<T> {
    ghost Value = { List T };

    ghost view = { λ list. list.queue.items };
}

impl<T> Items<T> {
    /// The list without items.
    pub fn new(alloc: Global) -> Self
        ensures { result ≡ [] }
    {
        Items {
            queue: VecDeque::new(alloc),
        }
    }

    /// How many items there are.
    pub fn count(&self) -> usize
        ensures { result ≡ length self.now }
    {
        self.queue.len()
    }

    pub fn is_empty(&self) -> bool
        ensures { IsTrue result ↔ (self.now ≡ []) }
    {
        self.queue.is_empty()
    }

    /// The item at the place `i`, counted from 0.
    pub fn at(&self, i: usize) -> &T
        requires { i < length self.now }
        ensures { slice_get self.now i ≡ Some result.now }
    {
        &self.queue[i]
    }

    pub fn first(&self) -> Option<&T>
        ensures { option_copied result ≡ slice_get self.now 0 }
    {
        self.queue.front()
    }

    pub fn last(&self) -> Option<&T>
        ensures { option_copied result ≡ slice_get self.now (length self.now - 1) }
    {
        self.queue.back()
    }

    /// The items in order, the first in front.
    pub fn iter(&self) -> Iter<'_, T>
        ensures rest { deque_iter_rest result ≡ self.now }
        ensures runs { YieldsRefsInOrder (deque_iter_steps {X = T}) deque_iter_rest }
    {
        self.queue.iter()
    }

    /// Adds an item in front, or hands it back where there is no memory for it.
    pub fn try_push_front(&mut self, item: T) -> Result<(), AllocFailed<T>>
        ensures ok { OnOk result (self.new ≡ item ∷ self.old) }
        ensures err { IfErr result (λ failed. (failed.value ≡ item) × (self.new ≡ self.old)) }
    {
        self.queue.push_front(item)
    }

    /// Takes the last item away.
    pub fn take_last(&mut self) -> Option<T>
        ensures empty { IsNone result ↔ (self.old ≡ []) }
        ensures item { IfSome result (λ item. self.old ≡ self.new ++ item ∷ []) }
        ensures none { IfNone result (self.new ≡ []) }
    {
        self.queue.pop_back()
    }

    /// Takes the first item away.
    pub fn take_first(&mut self) -> Option<T>
        ensures empty { IsNone result ↔ (self.old ≡ []) }
        ensures item { IfSome result (λ item. self.old ≡ item ∷ self.new) }
        ensures none { IfNone result (self.new ≡ []) }
    {
        self.queue.pop_front()
    }
}

impl<T: Drop> Items<T> {
    /// Adds an item at the end.
    pub fn push(&mut self, item: T) -> Result<(), AllocError>
        ensures ok { OnOk result (self.new ≡ self.old ++ item ∷ []) }
        ensures err { OnErr result (self.new ≡ self.old) }
    {
        self.queue.push_back(item)?;
        Ok(())
    }

    /// Adds an item in front, which moves no other item.
    pub fn push_front(&mut self, item: T) -> Result<(), AllocError>
        ensures ok { OnOk result (self.new ≡ item ∷ self.old) }
        ensures err { OnErr result (self.new ≡ self.old) }
    {
        self.try_push_front(item)?;
        Ok(())
    }

    /// Puts an item in the place of another, which is dropped.
    pub fn set(&mut self, i: usize, item: T)
        requires { i < length self.old }
        ensures { self.new ≡ slice_set self.old i item }
    {
        self.queue[i] = item;
    }

    /// Moves all items of the other list behind those of this one.
    pub fn append(&mut self, other: &mut Items<T>) -> Result<(), AllocError>
        ensures ok { OnOk result (self.new ≡ self.old ++ other.old) }
        ensures emptied { OnOk result (other.new ≡ []) }
        ensures err { OnErr result (self.new ≡ self.old) }
        ensures other_err { OnErr result (other.new ≡ other.old) }
    {
        self.queue.append(&mut other.queue)
    }
}

#[cfg(test)]
mod tests {
    use super::*;
    use std::test::Fail;

    type Numbers = Items<u32>;

    /// What a list of these items is moved into and lent to, where its items can be.
    fn is_sent<T: Send>(_: &T) {}

    fn is_shared<T: Sync>(_: &T) {}

    fn crosses<T: Send + Sync>(list: &Items<T>) {
        is_sent(list);
        is_shared(list);
    }

    /// The items in order.
    fn in_order(alloc: Global, list: &Numbers) -> Result<Vec<u32>, AllocError> {
        let mut items = Vec::new(alloc);
        for item in list.iter() {
            items.push(*item)?;
        }
        Ok(items)
    }

    #[test]
    fn items_are_added_and_taken_at_both_ends(rt: HostRuntime) -> Result<(), Fail> {
        let mut list = Numbers::new(rt.alloc());
        crosses(&list);
        list.push(2)?;
        list.push(3)?;
        list.push_front(1)?;
        list.try_push_front(0)?;
        assert_eq!(rt; list.take_first(), Some(0));
        assert_eq!(rt; list.count(), 3);
        assert_eq!(rt; list.first().copied(), Some(1));
        assert_eq!(rt; list.last().copied(), Some(3));
        assert_eq!(rt;
            in_order(rt.alloc(), &list)?.as_slice(),
            [1, 2, 3].as_slice()
        );
        assert_eq!(rt; list.take_first(), Some(1));
        assert_eq!(rt; list.take_last(), Some(3));
        assert!(rt; list.count() == 1);
        assert_eq!(rt; *list.at(0), 2);
        list.set(0, 7);
        assert_eq!(rt; list.take_last(), Some(7));
        assert!(rt; list.is_empty());
        assert_eq!(rt; list.take_first(), None);
        Ok(())
    }

    #[test]
    fn the_items_of_another_list_move_behind(rt: HostRuntime) -> Result<(), Fail> {
        let mut list = Numbers::new(rt.alloc());
        let mut other = Numbers::new(rt.alloc());
        list.push(1)?;
        other.push(2)?;
        other.push(3)?;
        list.append(&mut other)?;
        assert_eq!(rt;
            in_order(rt.alloc(), &list)?.as_slice(),
            [1, 2, 3].as_slice()
        );
        assert!(rt; other.is_empty());
        Ok(())
    }
}
