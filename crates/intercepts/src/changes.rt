use ctrl_model::{Intercept, ServiceNo};

/// A change of the intercepts of services.
#[derive(Drop)]
pub enum InterceptChange {
    /// A service gets an intercept, in the place of the one that it has, if it has one.
    Set {
        service: ServiceNo,
        intercept: Intercept,
    },
    /// The intercept of a service goes, if it has one.
    Remove {
        service: ServiceNo,
    },
}
