ghost use Rattle.std.specs.Prelude.{◌≡◌, [], codes};
ghost use Rattle.ctrl_model.specs.State.{start};
ghost use Rattle.record_lines.specs.WorkedRecords.{small_network};
ghost use Rattle.network_picture.specs.Pictures.{picture_asked, picture_of};
ghost use Rattle.network_picture.specs.WorkedPictures.{torn_network};

/// The pictures of the state at the start, of a small network, and of one with a router that is not connected, a link that is down and a
/// terminator that failed.
pub fn worked_pictures()
    ensures start { picture_of start ≡ codes "flowchart LR\n  classDef off stroke-dasharray:5 5\n" }
    ensures small { picture_of small_network ≡ codes "flowchart LR\n  classDef off stroke-dasharray:5 5\n  r1[\"r1\"]\n  r2[\"r2\"]\n  s1([\"web\"])\n  r1 ---|\"l1: 11\"| r2\n  r2 -->|\"terminator 1: 0\"| s1\n" }
    ensures torn { picture_of torn_network ≡ codes "flowchart LR\n  classDef off stroke-dasharray:5 5\n  r1[\"r1\"]\n  r2[\"r2\"]\n  r4[\"far-side\"]:::off\n  s1([\"web\"])\n  s2([\"api.v2\"])\n  r1 ---|\"l1: 18\"| r2\n  r2 -.-|\"l2: 5\"| r4\n  r2 ---|\"l3: 90\"| r1\n  r2 -->|\"terminator 1: 0\"| s1\n  r4 -.->|\"terminator 2: 9\"| s2\n" }
{}

/// The pictures in which the way of a circuit is marked; none where no circuit has the number.
pub fn worked_marks()
    ensures small { picture_asked (codes "1") small_network ≡ codes "flowchart LR\n  classDef off stroke-dasharray:5 5\n  r1[\"r1\"]\n  r2[\"r2\"]\n  s1([\"web\"])\n  r1 ===|\"l1: 11\"| r2\n  r2 ==>|\"terminator 1: 0\"| s1\n  c1([\"ann\"]) ==> r1\n" }
    ensures torn { picture_asked (codes "3") torn_network ≡ codes "flowchart LR\n  classDef off stroke-dasharray:5 5\n  r1[\"r1\"]\n  r2[\"r2\"]\n  r4[\"far-side\"]:::off\n  s1([\"web\"])\n  s2([\"api.v2\"])\n  r1 ===|\"l1: 18\"| r2\n  r2 -.-|\"l2: 5\"| r4\n  r2 ---|\"l3: 90\"| r1\n  r2 ==>|\"terminator 1: 0\"| s1\n  r4 -.->|\"terminator 2: 9\"| s2\n  c3([\"ann\"]) ==> r1\n" }
    ensures absent { picture_asked (codes "1") torn_network ≡ [] }
    ensures padded { picture_asked (codes "03") torn_network ≡ [] }
    ensures no_number { picture_asked (codes "ann") small_network ≡ [] }
{}
