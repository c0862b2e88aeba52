//! Lists whose nodes are numbers, linked by index.
#![tactic(auto)]

mod links;
mod moves;
mod rings;

pub use links::Links;

#[cfg(test)]
mod tests {
    use super::Links;
    use std::test::Fail;

    #[tactic(auto, unfolding(crate::specs::Lists::list_at, crate::specs::Lists::is_among, crate::specs::Lists::is_listed, crate::specs::Lists::without, crate::specs::Lists::empty_lists, crate::specs::Lists::with_node_at_end, crate::specs::Lists::without_node, crate::specs::Lists::with_more_nodes, crate::specs::Lists::with_list_at_end))]
    #[test]
    fn five_nodes_in_two_lists(rt: HostRuntime) -> Result<(), Fail> {
        let mut links = Links::make(rt.alloc(), 5, 2)?;
        links.push_back(0, 3);
        links.push_back(0, 1);
        links.push_back(1, 4);
        assert_eq!(rt; links.unlink(3), true);
        assert_eq!(rt; links.unlink(3), false);
        assert_eq!(rt; links.first(0), Some(1));
        assert_eq!(rt; links.next(1), None);
        links.move_all(0, 1);
        assert_eq!(rt; links.first(0), None);
        assert_eq!(rt; links.first(1), Some(4));
        assert_eq!(rt; links.next(4), Some(1));
        assert_eq!(rt; links.next(1), None);
        links.grow(2)?;
        links.push_back(0, 6);
        assert_eq!(rt; links.first(0), Some(6));
        Ok(())
    }
}
