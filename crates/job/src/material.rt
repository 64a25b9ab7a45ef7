// A material of a job: any law that a job can make, as one type of law.
ghost use Rattle.job.specs.Materials.{material_law, material_lawful};

use cards::two_line::TwoLine;
use laws::law::{Law, Limits};
use laws::point_law::PointLaw;

#[derive(Drop)]
pub enum Material {
    Card(TwoLine),
    Points(PointLaw),
}

impl Law for Material {
    ghost meaning = { material_law };

    ghost lawful = { material_lawful };

    fn stress(&self, strain: i32) -> i32 {
        match self {
            Material::Card(law) => law.stress(strain),
            Material::Points(law) => law.stress(strain),
        }
    }

    fn limits(&self) -> Limits {
        match self {
            Material::Card(law) => law.limits(),
            Material::Points(law) => law.limits(),
        }
    }
}
