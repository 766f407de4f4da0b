// Which federations open, and what they begin with.
use crate::rig::{open, open_over, reads, same};
use federation::{Closed, Federation, NotOpened};
use refusal::Refusal::{BadOpen, NoCluster, NotKept};
use rule::OnNews;
use slots::Slots;
use std::test::Fail;
use store::{RowKey, Store};

// Checkpoint 1 of every cluster is kept with a zero word for each node, and no other.
#[test]
fn a_new_federation_keeps_zero_words(rt: HostRuntime) -> Result<(), Fail> {
    let federation = open(rt.alloc(), 3, 2)?;
    for cluster in 0..3 {
        assert!(rt; reads(&federation, cluster, 1, &[0, 0]));
        same(&rt, &federation.read(cluster, 0).err(), &Some(NotKept));
        same(&rt, &federation.read(cluster, 2).err(), &Some(NotKept));
    }
    same(&rt, &federation.read(3, 1).err(), &Some(NoCluster));
    Ok(())
}

// 2 to 8 clusters of 1 to 32 nodes.
#[test]
fn sizes_are_checked(rt: HostRuntime) -> Result<(), Fail> {
    for (clusters, nodes, opens) in [
        (0, 1, false),
        (1, 1, false),
        (2, 1, true),
        (8, 32, true),
        (9, 1, false),
        (2, 0, false),
        (2, 33, false),
        (255, 255, false),
    ] {
        let opened = open_over(rt.alloc(), clusters, nodes, OnNews, Slots::new(rt.alloc())?);
        let expected = (!opens).then_some(Closed::Refused(BadOpen));
        assert_eq!(rt;
            opened.err(),
            expected,
            "{clusters} clusters, {nodes} nodes"
        );
    }
    Ok(())
}

// A store that holds a row is refused, and comes back with it.
#[test]
fn a_store_has_to_be_empty(rt: HostRuntime) -> Result<(), Fail> {
    let mut store = Slots::new(rt.alloc())?;
    let key = RowKey {
        cluster: 7,
        number: 9,
    };
    store.keep(key, &[5])?;
    let opened = Federation::open(0, 2, 1, OnNews, store, rt.alloc());
    let back = opened.err().ok_or("opened over a row")?;
    let NotOpened {
        why,
        mut store,
        rule,
    } = back;
    same(&rt, &why, &Closed::Refused(BadOpen));
    same(&rt, &rule, &OnNews);
    same(&rt, &store.count(), &1);
    same(&rt, &store.discard(key), &Ok(()));
    assert!(rt; open_over(rt.alloc(), 2, 1, rule, store).is_ok());
    Ok(())
}
