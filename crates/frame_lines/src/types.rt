ghost use Rattle.std.specs.Prelude.{◌≡◌, map};
ghost use Rattle.std.specs.Option.{option_map};
ghost use Rattle.frame_lines.specs.TypeNames.{type_names, number_among, name_among, number_named, name_numbered};

/// Every content type that has a name, in the order of the numbers.
static TYPES: [(u32, &str); 43] = [
    (0, "Hello"),
    (1000, "CreateIdentity"),
    (1001, "UpdateIdentity"),
    (1002, "DeleteIdentity"),
    (1010, "CreateService"),
    (1011, "UpdateService"),
    (1012, "DeleteService"),
    (1020, "CreateRouter"),
    (1021, "UpdateRouter"),
    (1022, "DeleteRouter"),
    (1023, "ConnectRouter"),
    (1024, "DisconnectRouter"),
    (1100, "CreateServicePolicy"),
    (1101, "UpdateServicePolicy"),
    (1102, "DeleteServicePolicy"),
    (1110, "CreateEdgeRouterPolicy"),
    (1111, "UpdateEdgeRouterPolicy"),
    (1112, "DeleteEdgeRouterPolicy"),
    (1120, "CreateServiceEdgeRouterPolicy"),
    (1121, "UpdateServiceEdgeRouterPolicy"),
    (1122, "DeleteServiceEdgeRouterPolicy"),
    (1200, "CreateLink"),
    (1201, "SetLinkCost"),
    (1202, "ReportLatency"),
    (1203, "ReportState"),
    (1204, "DeleteLink"),
    (1210, "SetLeastRouterCost"),
    (1300, "CreateTerminator"),
    (1301, "UpdateTerminator"),
    (1302, "DeleteTerminator"),
    (1400, "CreateCircuit"),
    (1401, "DeleteCircuit"),
    (1402, "Explain"),
    (1403, "VerifyRoute"),
    (1500, "ShowGrants"),
    (1501, "ListServices"),
    (1502, "ShowCounts"),
    (1503, "ShowCircuit"),
    (1510, "Compact"),
    (1600, "SetIntercept"),
    (1601, "ClearIntercept"),
    (1610, "Pick"),
    (1611, "ListClashes"),
];

/// All rows: each content type that has a name, and the name.
pub(crate) fn types() -> &'static [(u32, &'static str)]
    ensures { map (λ row. (row.0, row.1.now)) result.now ≡ type_names }
{
    &TYPES
}

fn number_among(rows: &[(u32, &'static str)], name: &[u8]) -> Option<u32>
    ensures { result ≡ number_among (map (λ row. (row.0, row.1.now)) rows.now) name.now }
{
    'rows: for (number, known) in rows {
        if known.as_bytes() == name {
            return Some(*number);
        }
    }
    None
}

fn name_among(rows: &[(u32, &'static str)], number: u32) -> Option<&'static str>
    ensures { option_map (λ name. name.now) result ≡ name_among (map (λ row. (row.0, row.1.now)) rows.now) number }
{
    'rows: for (known, name) in rows {
        if *known == number {
            return Some(name);
        }
    }
    None
}

/// The content type of a name, if one has it.
pub(crate) fn number_named(name: &[u8]) -> Option<u32>
    ensures { result ≡ number_named name.now }
{
    number_among(types(), name)
}

/// The name of a content type, if it has one (docs/FORMATS.md, "Lines for people").
pub fn name_numbered(number: u32) -> Option<&'static str>
    ensures { option_map (λ name. name.now) result ≡ name_numbered number }
{
    name_among(types(), number)
}
